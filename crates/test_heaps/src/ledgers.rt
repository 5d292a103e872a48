//! Ledgers that begin with 10 words. Shares post words, also in threads, and are gathered.
ghost use Rattle.std.specs.Prelude.{◌≡◌};
ghost use Rattle.comp_ledger.specs.Ledgers.{share_count};

use crate::expected::{expect_eq, expect_so};
use comp_ledger::{Ledger, LedgerFault, NotGathered, Share};
use std::alloc::Global;
use std::marker::Brand;
use std::process::Abort;
use std::sync::Wait;
use std::sync::ledger::{Blank, Ledger as Named};
use std::thread::{self, Threads};
use test_support::At;

// A call of a share.
enum ShareCall {
    // This many words are posted, this often, with this answer each time.
    Post(u64, u8, Result<(), LedgerFault>),
    // The number of words that the share has posted in all.
    Posted(u64),
    // The number of the share.
    Number(u8),
}

// What all shares do at once: the calls of the first, and those of each other one.
type Round = (&'static [ShareCall], &'static [ShareCall]);

// A ledger and its shares, what they post, and the result of gathering them.
struct LedgerPlay {
    // The name that a failing test prints.
    name: &'static str,
    shares: u8,
    capacity: u64,
    rounds: &'static [Round],
    // Whether a gathering that is refused comes first.
    refused: bool,
    // The words that each share hands in at the end.
    last: &'static [u64],
    // The number of words in all.
    words: u64,
}

// The first row of a round of a case.
fn round_of(case: &LedgerPlay, round: usize) -> At<'static> {
    At::of_round(case.name, round)
}

// Posts words this often. Answers whether each answer is the wanted one.
fn posts<L: Named, R: Wait>(
    rt: &R,
    ledger: &Ledger<L>,
    share: &mut Share<L>,
    words: u64,
    times: u8,
    wanted: Result<(), LedgerFault>,
) -> bool {
    for _ in 0..times {
        if ledger.post(rt, share, words) != wanted {
            return false;
        }
    }
    true
}

// Plays the calls of a share, one after another.
fn play<L: Named, R: Abort + Wait>(
    rt: &R,
    ledger: &Ledger<L>,
    share: &mut Share<L>,
    at: At,
    calls: &[ShareCall],
) {
    for (row, call) in calls.iter().enumerate() {
        let so = match *call {
            ShareCall::Post(words, times, wanted) => posts(rt, ledger, share, words, times, wanted),
            ShareCall::Posted(wanted) => share.posted() == wanted,
            ShareCall::Number(wanted) => share.number() == wanted,
        };
        expect_so(rt, at.after(row), so);
    }
}

// Plays the calls of the first share, and those of each other one, each in a thread of its own.
fn at_once<L: Named + Send + Sync, R: Abort + Threads + Wait + Sync>(
    rt: &R,
    ledger: &Ledger<L>,
    shares: &mut [Share<L>],
    at: At,
    first: &[ShareCall],
    second: &[ShareCall],
) {
    thread::for_each_mut(
        rt,
        shares,
        64,
        &|number, share: &mut Share<L>| {
            let calls = if number == 0 { first } else { second };
            play(rt, ledger, share, at, calls);
        },
    );
}

// Gathers these shares and last words, which must be refused for this cause. Answers what the refusal hands back.
fn gather_refused<L: Named>(
    rt: &impl Abort,
    ledger: Ledger<L>,
    shares: Vec<Share<L>>,
    at: At,
    last: &[u64],
    wanted: LedgerFault,
) -> NotGathered<L>
    requires whole { share_count ledger ≡ L.parts }
    ensures same { result.ledger ≡ ledger }
{
    assert!(rt; shares.len() == last.len());
    let Err(left) = ledger.gather(shares, last) else {
        panic!(rt; "nothing was refused");
    };
    expect_eq(rt, at, left.fault, wanted);
    left
}

// Neither share has posted anything.
const NONE_POSTED: [ShareCall; 1] = [ShareCall::Posted(0)];

// Two refused gatherings: the second share alone, then both shares with one word too many.
fn gather_in_vain<L: Named + Send + Sync, R: Abort + Threads + Wait + Sync>(
    rt: &R,
    ledger: Ledger<L>,
    mut shares: Vec<Share<L>>,
    at: At,
) -> NotGathered<L>
    requires whole { share_count ledger ≡ L.parts }
    ensures same { result.ledger ≡ ledger }
{
    assert!(rt; shares.len() == 2);
    let first = shares.remove(0);
    let missing = LedgerFault::ShareMissing(0);
    let mut left = gather_refused(rt, ledger, shares, at, &[0], missing);
    left.shares.push(first).expect(rt, "memory for a share");
    let over = LedgerFault::OverCapacity;
    let mut left = gather_refused(rt, left.ledger, left.shares, at, &[2, 1], over);
    at_once(
        rt,
        &left.ledger,
        &mut left.shares,
        at,
        &NONE_POSTED,
        &NONE_POSTED,
    );
    left
}

// Gathers these shares and last words. Checks the number of words in all.
fn gather<L: Named>(
    rt: &impl Abort,
    ledger: Ledger<L>,
    shares: Vec<Share<L>>,
    at: At,
    last: &[u64],
    wanted: u64,
)
    requires whole { share_count ledger ≡ L.parts }
{
    assert!(rt; shares.len() == last.len());
    let words = ledger.gather(shares, last).ok();
    expect_eq(rt, at, words, Some(wanted));
}

// Gathers the shares of a case.
fn end<L: Named + Send + Sync, R: Abort + Threads + Wait + Sync>(
    rt: &R,
    ledger: Ledger<L>,
    shares: Vec<Share<L>>,
    case: &LedgerPlay,
)
    requires whole { share_count ledger ≡ L.parts }
{
    let at = round_of(case, case.rounds.len());
    if case.refused {
        let left = gather_in_vain(rt, ledger, shares, at);
        gather(rt, left.ledger, left.shares, at, case.last, case.words);
    } else {
        gather(rt, ledger, shares, at, case.last, case.words);
    }
}

// Plays the rounds of a case, one after another.
fn play_rounds<L: Named + Send + Sync, R: Abort + Threads + Wait + Sync>(
    rt: &R,
    ledger: &Ledger<L>,
    shares: &mut [Share<L>],
    case: &LedgerPlay,
) {
    assert!(rt; ledger.count() == case.shares && shares.len() == usize::from(case.shares));
    for (round, (first, second)) in case.rounds.iter().enumerate() {
        at_once(rt, ledger, shares, round_of(case, round), first, second);
    }
}

// Plays a case with this name of its ledger.
fn play_named<L: Named + Send + Sync, R: Abort + Threads + Wait + Sync>(
    rt: &R,
    alloc: Global,
    blank: Blank,
    case: &LedgerPlay,
)
    requires name { blank.name ≡ L.name }
    requires parts { blank.parts ≡ L.parts }
    requires count { blank.parts ≡ case.now.shares }
{
    assert!(rt; 1 <= case.shares && 10 <= case.capacity);
    let Ok((ledger, mut shares)) = Ledger::<L>::new(alloc, blank, 10, case.capacity, case.shares)
    else {
        panic!(rt; "no memory for a ledger");
    };
    play_rounds(rt, &ledger, &mut shares, case);
    end(rt, ledger, shares, case);
}

// Plays a case.
fn play_case<R: Abort + Threads + Wait + Sync>(rt: &R, alloc: Global, case: &LedgerPlay) {
    let blank = Blank::new(u64::from(case.shares));
    play_named::<Brand, R>(rt, alloc, blank, case);
}

const OVER: Result<(), LedgerFault> = Err(LedgerFault::OverCapacity);

// Two shares: the second alone, then both with one word too many, then both with as many as fit.
const GATHERED: LedgerPlay = LedgerPlay {
    name: "gathers two shares",
    shares: 2,
    capacity: 12,
    rounds: &[(&[], &[ShareCall::Number(1)])],
    refused: true,
    last: &[1, 1],
    words: 12,
};

// One share: as many words as fit, then one more.
const ALONE: LedgerPlay = LedgerPlay {
    name: "posts until it is full",
    shares: 1,
    capacity: 12,
    rounds: &[(
        &[
            ShareCall::Post(2, 1, Ok(())),
            ShareCall::Post(1, 1, OVER),
            ShareCall::Posted(2),
        ],
        &[],
    )],
    refused: false,
    last: &[0],
    words: 12,
};

// Two threads together post as many words as fit, and then not one more fits.
const AT_ONCE: LedgerPlay = LedgerPlay {
    name: "posts in two threads",
    shares: 2,
    capacity: 510,
    rounds: &[
        (
            &[ShareCall::Post(3, 100, Ok(()))],
            &[ShareCall::Post(2, 100, Ok(()))],
        ),
        (
            &[ShareCall::Post(1, 1, OVER), ShareCall::Posted(300)],
            &[ShareCall::Post(1, 1, OVER), ShareCall::Posted(200)],
        ),
    ],
    refused: false,
    last: &[0, 0],
    words: 510,
};

// A hundred posts of one word.
const HUNDRED: [ShareCall; 1] = [ShareCall::Post(1, 100, Ok(()))];

// The most shares, each in a thread, together post as many words as fit, and then not one more fits.
const ALL_AT_ONCE: LedgerPlay = LedgerPlay {
    name: "posts in sixty-four threads",
    shares: 64,
    capacity: 6_410,
    rounds: &[
        (&HUNDRED, &HUNDRED),
        (
            &[ShareCall::Post(1, 1, OVER), ShareCall::Posted(100)],
            &[ShareCall::Posted(100)],
        ),
    ],
    refused: false,
    last: &[0; 64],
    words: 6_410,
};

static PLAYS: [LedgerPlay; 4] = [GATHERED, ALONE, AT_ONCE, ALL_AT_ONCE];

#[test]
fn shares_post_no_more_words_than_fit(rt: HostRuntime) {
    for case in &PLAYS {
        play_case(&rt, rt.alloc(), case);
    }
}
