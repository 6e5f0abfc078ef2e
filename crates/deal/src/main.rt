// Deals correlations into two sheets, reads the sheets again, and checks that the deal is lawful.
#![tactic(auto)]

use anyhow::bail;
use dealer::dealer::Dealer;
use dealer::dealer::deals::deal;
use order::Order;
use refusal::kind::Kind;
use sheets_of::{examine, sheet_of};
use std::fs;
use std::rt::{Env, Files};

mod order;
mod per_seat;
mod sheets_of;

// Writes a dealer's sheet into a file.
fn save_sheet(
    rt: &(impl Files + AllocGlobal),
    dealer: &mut Dealer,
    file: &str,
) -> anyhow::Result<()> {
    let sheet = sheet_of(rt.alloc(), dealer)?;
    fs::write(rt, file, sheet.as_slice())?;
    Ok(())
}

// Writes the sheets of the dealers of both seats.
fn write_deal(rt: &(impl Files + AllocGlobal), order: &Order) -> anyhow::Result<()> {
    let (mut first, mut second) = deal(order.start, order.counts);
    save_sheet(rt, &mut first, order.files.first.as_str())?;
    save_sheet(rt, &mut second, order.files.second.as_str())
}

// Says whether the deal is lawful; one that is not is an error.
fn conclude(rt: &impl Print, lawful: bool) -> anyhow::Result<()> {
    if !lawful {
        println!(rt; "the deal is NOT lawful")?;
        bail!("the sheets are no lawful deal");
    }
    println!(rt; "the deal is lawful")?;
    Ok(())
}

// Reads the two sheets, and prints what they hold.
fn examine_deal(rt: &(impl Files + Print + AllocGlobal), order: &Order) -> anyhow::Result<()> {
    let files = &order.files;
    let first = fs::read(rt, files.first.as_str())?;
    let second = fs::read(rt, files.second.as_str())?;
    let found = examine(first.as_slice(), second.as_slice(), order.counts)?;
    println!(rt;
        "{}: {} bytes, seat {}",
        files.first,
        first.len(),
        found.seats.first
    )?;
    println!(rt;
        "{}: {} bytes, seat {}",
        files.second,
        second.len(),
        found.seats.second
    )?;
    for kind in Kind::ALL {
        println!(rt; "{kind}: {}", found.tallies.get(kind))?;
    }
    conclude(rt, found.is_lawful(order.counts))
}

fn run(rt: &(impl Env + Files + Print + AllocGlobal)) -> anyhow::Result<()> {
    let order = Order::from_args(rt)?;
    println!(rt; "{order}")?;
    write_deal(rt, &order)?;
    examine_deal(rt, &order)
}

fn main(rt: HostRuntime) -> anyhow::Result<()> {
    run(&rt)
}
