// Sheets worked out by hand, damaged sheets, and sheets written and read again.
use dealer::dealer::deals::deal;
use sheet_writer::writer::write_sheet;
use sheets::sheet::SheetSource;
use sources::quota::Quota;
use sources::source::Source;
use std::test::Fail;
use test_tools::{counts, drawn, told};

// Seat 1 and one half of kind 0, with choice 2 and mask 3:
//
//     seat  bit            ring-0         ring-1         choice  mask  filling
//     1     0000000000001  0000000000000  0000000000000  0010    11    00
//
// and, eight bits to a byte, 10000000 00000100 00000000 00000000 00000000 00101100.
const SMALL: [u8; 6] = [0x80, 0x04, 0x00, 0x00, 0x00, 0x2c];

// Seat 1's sheet of the deal of start 7 with one correlation of each kind, and four zeros behind it.
// It has 40 + 6 + 34 + 160 bits, which fill 30 bytes.
const LARGE: [u8; 34] = [
    0x80, 0x04, 0x00, 0x20, 0x01, 0x2c, 0xd6, 0x95, 0x1c, 0xe9, 0x2e, 0xe7, 0x11, 0x16, 0xc5, 0x65,
    0x4b, 0xc3, 0xfe, 0x1e, 0x2d, 0x50, 0x3c, 0x6d, 0x2c, 0xe9, 0x17, 0x0b, 0xc5, 0x87, 0, 0, 0, 0,
];

// Two halves of kind 0, and one of each other kind.
fn drawn_four<S: Source>(source: &mut S) -> [[u32; 20]; 4] {
    [0, 0, 1, 2].map(|kind| drawn(source, kind))
}

// The number with which bytes are refused as a sheet, as the rules list refusals, or 0 where they are one.
fn opening(bytes: &[u8]) -> u8 {
    SheetSource::open(bytes).err().map_or(0, |e| e.code())
}

// How many fronts of the bytes, of each length below the whole, are refused as sheets.
fn refused_fronts(bytes: &[u8]) -> usize {
    (0..bytes.len())
        .filter(|&n| opening(&bytes[..n]) == 19)
        .count()
}

#[test]
fn small_sheet_is_read(rt: HostRuntime) -> Result<(), Fail> {
    let mut source = SheetSource::open(&SMALL)?;
    assert_eq!(rt; u8::from(source.seat()), 1);
    let mut words = [9u32; 17];
    assert_eq!(rt; source.draw(0, &mut words)?, 2);
    assert_eq!(rt; [words[0], words[1], words[2]], [2, 3, 9]);
    assert_eq!(rt;
        [
            told(source.draw(0, &mut words)),
            told(source.afford(1, 1)),
            told(source.afford(2, 2)),
        ],
        [[10, 0, 1, 0], [10, 1, 1, 0], [10, 2, 2, 0]]
    );
    Ok(())
}

#[test]
fn small_sheet_is_written(rt: HostRuntime) -> Result<(), Fail> {
    let mut source = SheetSource::open(&SMALL)?;
    let mut bytes = [0xeeu8; 8];
    assert_eq!(rt; write_sheet(&mut source, &mut bytes)?, 6);
    assert_eq!(rt; bytes, [0x80, 0x04, 0x00, 0x00, 0x00, 0x2c, 0xee, 0xee]);
    assert_eq!(rt; told(source.afford(0, 1)), [10, 0, 1, 0]);
    Ok(())
}

// Of the lengths 0 to 10 only 6 is right, and of the lengths 0 to 33 only 30.
#[test]
fn wrong_lengths_are_refused(rt: HostRuntime) {
    let small = [0x80, 0x04, 0x00, 0x00, 0x00, 0x2c, 0, 0, 0, 0, 0];
    assert_eq!(rt; [refused_fronts(&small), refused_fronts(&LARGE)], [10, 33]);
    assert_eq!(rt; [opening(&small[..6]), opening(&LARGE[..30])], [0, 0]);
}

// The last byte of the small sheet ends in two filling bits, so three fillings are wrong.
#[test]
fn wrong_fillings_are_refused(rt: HostRuntime) {
    let refused = (1..4).filter(|filling| {
        let mut sheet = SMALL;
        sheet[5] |= filling;
        opening(&sheet) == 19
    });
    assert_eq!(rt; refused.count(), 3);
}

// A count over 8191 comes before too few bytes, and neither refusal changes anything.
#[test]
fn writer_refuses(rt: HostRuntime) -> Result<(), Fail> {
    let (_, mut many) = deal(7, counts(0, 8192, 0));
    let (_, mut dealer) = deal(7, counts(3, 0, 0));
    let mut few = [0xeeu8; 7];
    assert_eq!(rt;
        [
            told(write_sheet(&mut many, &mut few)),
            told(write_sheet(&mut dealer, &mut few)),
            told(many.afford(1, 8192)),
            told(dealer.afford(0, 3)),
        ],
        [[8, 0, 0, 0], [13, 0, 0, 0], [0, 0, 0, 0], [0, 0, 0, 0]]
    );
    assert_eq!(rt; few, [0xee; 7]);
    let mut enough = [0xeeu8; 8];
    assert_eq!(rt; write_sheet(&mut dealer, &mut enough)?, 8);
    assert_eq!(rt; enough, [0x80, 0x0c, 0x00, 0x00, 0x00, 0x2d, 0xb3, 0x40]);
    assert_eq!(rt; told(dealer.afford(0, 1)), [10, 0, 1, 1]);
    Ok(())
}

// The quota's own shortages, and one of the sheet below, which has fewer halves than it allows.
#[test]
fn quota_over_a_sheet(rt: HostRuntime) -> Result<(), Fail> {
    let mut quota = Quota::new(SheetSource::open(&LARGE[..30])?, counts(0, 5, 1));
    assert_eq!(rt;
        [
            told(quota.afford(0, 1)),
            told(quota.afford(1, 2)),
            told(quota.afford(2, 2)),
        ],
        [[10, 0, 1, 2], [10, 1, 1, 0], [10, 2, 1, 2]]
    );
    let mut bytes = [0u8; 30];
    assert_eq!(rt; write_sheet(&mut quota, &mut bytes)?, 30);
    let mut sheet = SheetSource::open(&bytes)?;
    let (_, mut dealer) = deal(7, counts(0, 1, 1));
    assert_eq!(rt; drawn_four(&mut sheet), drawn_four(&mut dealer));
    Ok(())
}

// Each kind is cut by another of the three.
#[test]
fn dealer_under_two_quotas(rt: HostRuntime) -> Result<(), Fail> {
    let (dealer, _) = deal(7, counts(4, 2, 0));
    let inner = Quota::new(dealer, counts(3, 1, 5));
    let mut outer = Quota::new(inner, counts(2, 5, 5));
    let mut bytes = [0u8; 34];
    assert_eq!(rt; write_sheet(&mut outer, &mut bytes)?, 34);
    let mut sheet = SheetSource::open(&bytes)?;
    let (mut dealer, _) = deal(7, counts(2, 1, 0));
    assert_eq!(rt; drawn_four(&mut sheet), drawn_four(&mut dealer));
    Ok(())
}
