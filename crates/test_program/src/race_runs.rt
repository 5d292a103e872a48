//! Races of traces: the printed lines, the dump, and what refusals leave.
use crate::replay_runs::KEPT;
use test_support::{Content, Step};

// Each of the two mutators shows a value and then reads a field of null: mutator 1 in line 7, and mutator 0 in line 9.
const STOPPED: Content = Content::Text(
    "0 root 0 0\n0 load 1 0 0\n1 root 0 0\n1 load 1 0 0\n0 get 1 0\n1 get 1 0\n1 get 2 0\n0 get 1 0\n0 get 2 0\n1 get 1 0\n",
);

/// Races that end.
pub const RACED: &[Step] = &[
    Step::Write("race.tests.img", Content::ThreeImage),
    Step::Write("race.tests.trace", Content::SeenTrace),
    Step::PrintsEither(
        "race race.tests.img race.tests.trace race.tests.out",
        "6 7\nlive 4\n",
        "6 11\nlive 4\n",
    ),
    Step::Length("race.tests.out", 656),
    Step::Prints("audit race.tests.img race.tests.out", "ok 4\n"),
    Step::Write("race.tests.trace", Content::FreshTrace),
    Step::Prints(
        "race --mutators 1 --fresh 2 race.tests.img race.tests.trace race.tests.out",
        "live 5\n",
    ),
    Step::Length("race.tests.out", 1_129),
    Step::Prints("audit race.tests.img race.tests.out", "ok 5\n"),
    Step::Remove("race.tests.img"),
    Step::Remove("race.tests.trace"),
    Step::Remove("race.tests.out"),
];

// The race of the trace written last.
const STOP: &str = "race stop.tests.img stop.tests.trace stop.tests.out";

/// Refused races. No dump is created, and a file at its path stays as it was.
pub const HALTED: &[Step] = &[
    Step::Write("stop.tests.img", Content::ThreeImage),
    Step::Write("stop.tests.trace", STOPPED),
    Step::Refuses(STOP, "5 11\n6 11\n8 11\n", "T6 Refused(7, M1 Null)"),
    Step::Absent("stop.tests.out"),
    Step::Write("stop.tests.out", KEPT),
    Step::Refuses(
        "race --mutators 2 --fresh 0 stop.tests.img stop.tests.trace stop.tests.out",
        "5 11\n6 11\n8 11\n",
        "T6 Refused(7, M1 Null)",
    ),
    Step::Holds("stop.tests.out", KEPT),
    Step::Write("stop.tests.trace", Content::Text("0 nil 0\n2 nil 0\n")),
    Step::Refuses(STOP, "", "T2 NoSuchMutator(2)"),
    Step::Holds("stop.tests.out", KEPT),
    Step::Refuses(
        "race stop.tests.img absent.trace stop.tests.out",
        "",
        "P1 CannotOpen(trace)",
    ),
    Step::Holds("stop.tests.out", KEPT),
    Step::Remove("stop.tests.img"),
    Step::Remove("stop.tests.trace"),
    Step::Remove("stop.tests.out"),
];
