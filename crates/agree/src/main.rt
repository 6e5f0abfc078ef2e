// Two examiners learn whether both of two shared bits are 1, by one lookup over dealt correlations.
#![tactic(auto)]

use conjunction::{Exchange, Shares, conjoin};
use dealer::dealer::deals::deal;
use refusal::per_kind::PerKind;

mod conjunction;

// Prints what one lookup came to, and whether it is the "and" of the two bits.
fn report(rt: &impl Print, a: Shares, b: Shares, e: &Exchange) -> anyhow::Result<bool> {
    let x = a.x ^ b.x;
    let y = a.y ^ b.y;
    let result = e.first ^ e.second;
    let right = result == x & y;
    println!(rt;
        "x = {x} ({} and {}), y = {y} ({} and {})",
        a.x, b.x, a.y, b.y
    )?;
    println!(rt; "  seat 1 sends {}", e.request)?;
    println!(rt; "  seat 0 sends {:?}", e.words)?;
    println!(rt;
        "  shares {} and {} make {result}: {right}",
        e.first, e.second
    )?;
    Ok(right)
}

fn run(rt: &impl Print) -> anyhow::Result<()> {
    let counts = PerKind {
        bit: 16,
        ring0: 0,
        ring1: 0,
    };
    let (mut first, mut second) = deal(1, counts);
    let mut agreed = 0u32;
    // Bits 3 and 2 of a number are seat 0's shares, bits 1 and 0 seat 1's. Each turn draws, prints and may fail,
    // which a loop shows more plainly than a fold.
    for i in 0..16 {
        let (a, b) = (Shares::from_last_bits(i / 4), Shares::from_last_bits(i));
        let e = conjoin(&mut first, &mut second, a, b)?;
        if report(rt, a, b, &e)? {
            agreed += 1;
        }
    }
    println!(rt; "{agreed} of 16 results are x and y")?;
    let zeros = Shares::from_last_bits(0);
    match conjoin(&mut first, &mut second, zeros, zeros) {
        Ok(_) => println!(rt; "a seventeenth lookup went ahead")?,
        Err(e) => println!(rt; "a seventeenth lookup: {e}")?,
    }
    Ok(())
}

fn main(rt: HostRuntime) -> anyhow::Result<()> {
    run(&rt)
}
