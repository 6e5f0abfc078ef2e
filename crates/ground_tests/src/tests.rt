// Vectors of the rules, and the refusals of a source in their order.
use dealer::dealer::Dealer;
use dealer::dealer::deals::deal;
use lookup::group::{Ring, Xor};
use lookup::half::{ReceiverHalf, SenderHalf};
use lookup::steps::{answer, receiver_share, request, sender_share};
use sources::quota::Quota;
use sources::source::Source;
use test_tools::{counts, drawn, told};

// The halves that dealers with start 7 deal first, as the rules list them.
#[test]
fn dealer_vector(rt: HostRuntime) {
    let (mut first, mut second) = deal(7, counts(2, 1, 1));
    assert_eq!(rt;
        [drawn(&mut first, 0), drawn(&mut first, 0)],
        [
            [1, 3, 3, 1, 1, 0, 1, 1, 3, 2, 1, 2, 0, 2, 0, 0, 3, 9, 9, 9],
            [0, 3, 3, 1, 2, 0, 3, 3, 0, 3, 1, 2, 0, 0, 1, 3, 2, 9, 9, 9],
        ]
    );
    let bit = drawn(&mut second, 0);
    let ring0 = drawn(&mut second, 1);
    let ring1 = drawn(&mut second, 2);
    assert_eq!(rt;
        [bit[0], bit[1], bit[2], ring0[0], ring0[1], ring0[2]],
        [2, 3, 9, 0, 3600096489, 9]
    );
    assert_eq!(rt;
        [ring1[0], ring1[1], ring1[2], ring1[3], ring1[4], ring1[5]],
        [786895126, 3311750083, 4263390544, 1013787881, 386647431, 9]
    );
}

// Kind, then words, then shortage; and a refusal leaves the words.
#[test]
fn dealer_refuses(rt: HostRuntime) {
    assert_eq!(rt; told(Dealer::new(2, 7, counts(1, 1, 1))), [8, 0, 0, 0]);
    let (_, mut dealer) = deal(7, counts(0, 3, 0));
    let mut short = [9u32; 16];
    let mut words = [9u32; 17];
    assert_eq!(rt;
        [
            told(dealer.draw(3, &mut short)),
            told(dealer.draw(0, &mut short)),
            told(dealer.draw(0, &mut words)),
            told(dealer.afford(3, 0)),
            told(dealer.afford(1, 3)),
            told(dealer.afford(1, 5)),
        ],
        [
            [8, 0, 0, 0],
            [13, 0, 0, 0],
            [10, 0, 1, 1],
            [8, 0, 0, 0],
            [0, 0, 0, 0],
            [10, 1, 2, 1],
        ]
    );
    assert_eq!(rt; words, [9u32; 17]);
}

// A quota's own shortage, one that it passes up, and a stack of two.
#[test]
fn quotas_stack(rt: HostRuntime) {
    let mut words = [9u32; 17];
    let (dealer, _) = deal(7, counts(3, 1, 0));
    let mut inner = Quota::new(dealer, counts(2, 4, 4));
    assert_eq!(rt;
        [
            told(inner.afford(0, 3)),
            told(inner.afford(1, 3)),
            told(inner.draw(2, &mut words)),
            told(inner.draw(0, &mut words)),
        ],
        [[10, 0, 1, 2], [10, 1, 2, 1], [10, 2, 1, 1], [0, 0, 0, 0]]
    );
    let mut outer = Quota::new(inner, counts(5, 0, 1));
    assert_eq!(rt;
        [
            told(outer.afford(0, 2)),
            told(outer.draw(1, &mut words)),
            told(outer.draw(0, &mut words)),
            told(outer.draw(0, &mut words)),
        ],
        [[10, 0, 1, 2], [10, 1, 1, 2], [0, 0, 0, 0], [10, 0, 1, 2]]
    );
    let dealer = outer.into_below().into_below();
    assert_eq!(rt;
        [told(dealer.afford(0, 1)), told(dealer.afford(0, 2))],
        [[0, 0, 0, 0], [10, 0, 1, 1]]
    );
}

// A lookup of kind 0 by the first correlation of start 7, worked out in the rules.
#[test]
fn xor_vector(rt: HostRuntime) {
    let masks = [1u32, 3, 3, 1, 1, 0, 1, 1, 3, 2, 1, 2, 0, 2, 0, 0];
    let sender = SenderHalf {
        masks: &masks,
        blind: 3,
    };
    let receiver = ReceiverHalf { choice: 2, mask: 3 };
    let asked = request(16, receiver, 1);
    let mut words = [0u32; 16];
    answer::<Xor>(&[0, 1, 0, 0], sender, asked, &mut words);
    assert_eq!(rt; words, [0, 1, 2, 2, 3, 2, 2, 0, 1, 2, 1, 3, 1, 3, 3, 2]);
    assert_eq!(rt;
        [
            asked,
            sender_share::<Xor>(sender),
            receiver_share::<Xor>(receiver, 1, &words),
        ],
        [15, 3, 2]
    );
}

// One of kind 1: entries 100 and 0, sought at 0, whose shares add up to 100.
#[test]
fn ring_vector(rt: HostRuntime) {
    let masks = [3600096489u32, 1560654625, 4078552025, 1092612614];
    let sender = SenderHalf {
        masks: &masks,
        blind: 2912852909,
    };
    let receiver = ReceiverHalf {
        choice: 0,
        mask: 3600096489,
    };
    let mut words = [0u32; 4];
    answer::<Ring>(&[100, 0], sender, request(4, receiver, 0), &mut words);
    assert_eq!(rt; words, [2217982202, 178540238, 2696437638, 4005465523]);
    let mine = sender_share::<Ring>(sender);
    let theirs = receiver_share::<Ring>(receiver, 0, &words);
    assert_eq!(rt; mine.wrapping_add(theirs), 100);
}
