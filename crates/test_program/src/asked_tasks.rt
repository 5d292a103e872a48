//! Which words ask for which task.
use command_line::{VERSION_LINE, read_task};
use std::process::Abort;
use test_support::words_of;

/// The expected text about a line.
#[derive(Clone, Copy, Debug)]
pub enum Answer<'a> {
    /// This task, as `Debug` prints it.
    Task(&'a str),
    /// The help of the program.
    Help,
    /// A help or an error with this piece.
    Shows(&'a str),
    /// An error: the words are no command.
    Error,
}

// Whether a text is as expected.
fn is_text_of(text: &str, wanted: Answer) -> bool {
    match wanted {
        Answer::Task(task) => text == task,
        Answer::Help => text.starts_with("Help { text: ") && text.contains("Usage: compressor"),
        Answer::Shows(piece) => text.contains(piece),
        Answer::Error => text.starts_with("error: "),
    }
}

// Checks that the words of a line ask for this, or are refused with this.
fn expect_answer(rt: &(impl Abort + AllocGlobal), line: &str, wanted: Answer) {
    let words = words_of(rt.alloc(), line).expect(rt, "memory for words");
    let text = match read_task(rt.alloc(), &words) {
        Ok(task) => format!(in rt.alloc(); "{task:?}"),
        Err(error) => format!(in rt.alloc(); "{error}"),
    };
    let text = text.expect(rt, "memory for a text");
    assert!(rt;
        is_text_of(&text, wanted),
        "{line}: found {text}, wanted {wanted:?}"
    );
}

/// Checks each of these lines.
pub fn expect_lines(rt: &(impl Abort + AllocGlobal), lines: &[&str], wanted: Answer) {
    for line in lines {
        expect_answer(rt, line, wanted);
    }
}

// A line and the task that it asks for.
type AskedTask = (&'static str, &'static str);

// Checks the tasks of these lines.
fn expect_tasks(rt: &(impl Abort + AllocGlobal), asked: &[AskedTask]) {
    for (line, task) in asked {
        expect_answer(rt, line, Answer::Task(task));
    }
}

// Lines and the tasks that they ask for.
static TASKS: [AskedTask; 62] = [
    (
        "plan three.img",
        "Plan { image: \"three.img\", large: false }",
    ),
    ("plan -- --help", "Plan { image: \"--help\", large: false }"),
    (
        "word three.img 2",
        "Word { image: \"three.img\", index: 2, large: false }",
    ),
    (
        "word three.img +02 --",
        "Word { image: \"three.img\", index: 2, large: false }",
    ),
    (
        "word three.img 0002",
        "Word { image: \"three.img\", index: 2, large: false }",
    ),
    (
        "word three.img +018446744073709551615",
        "Word { image: \"three.img\", index: 18446744073709551615, large: false }",
    ),
    (
        "word -- -x.img 18446744073709551615",
        "Word { image: \"-x.img\", index: 18446744073709551615, large: false }",
    ),
    (
        "replay three.img t19 out",
        "Replay(TraceRun { image: \"three.img\", trace: \"t19\", dump: \"out\", mutators: 2, fresh: 64, large: false })",
    ),
    (
        "replay a t --fresh=4096 d --mutators 64",
        "Replay(TraceRun { image: \"a\", trace: \"t\", dump: \"d\", mutators: 64, fresh: 4096, large: false })",
    ),
    (
        "replay -- --fresh 0 1",
        "Replay(TraceRun { image: \"--fresh\", trace: \"0\", dump: \"1\", mutators: 2, fresh: 64, large: false })",
    ),
    (
        "race three.img t19 out",
        "Race(TraceRun { image: \"three.img\", trace: \"t19\", dump: \"out\", mutators: 2, fresh: 64, large: false })",
    ),
    (
        "race --mutators 1 --fresh 2 three.img t18 out",
        "Race(TraceRun { image: \"three.img\", trace: \"t18\", dump: \"out\", mutators: 1, fresh: 2, large: false })",
    ),
    (
        "race --fresh 0 three.img t18 out",
        "Race(TraceRun { image: \"three.img\", trace: \"t18\", dump: \"out\", mutators: 2, fresh: 0, large: false })",
    ),
    (
        "race a --mutators=7 -- -t -d",
        "Race(TraceRun { image: \"a\", trace: \"-t\", dump: \"-d\", mutators: 7, fresh: 64, large: false })",
    ),
    (
        "compact a.img out.dump",
        "Compact { image: \"a.img\", dump: \"out.dump\", workers: 2, large: false }",
    ),
    (
        "compact --workers 64 a b",
        "Compact { image: \"a\", dump: \"b\", workers: 64, large: false }",
    ),
    (
        "compact a --workers=3 b",
        "Compact { image: \"a\", dump: \"b\", workers: 3, large: false }",
    ),
    (
        "compact a b --workers +01",
        "Compact { image: \"a\", dump: \"b\", workers: 1, large: false }",
    ),
    (
        "compact -- --workers 3",
        "Compact { image: \"--workers\", dump: \"3\", workers: 2, large: false }",
    ),
    (
        "compact --workers 5 -- a -b",
        "Compact { image: \"a\", dump: \"-b\", workers: 5, large: false }",
    ),
    (
        "audit three.img forged.dump",
        "Audit(AuditRun { image: \"three.img\", dump: \"forged.dump\", whole: false, words: false, explain: false, large: false })",
    ),
    (
        "audit a -- -b",
        "Audit(AuditRun { image: \"a\", dump: \"-b\", whole: false, words: false, explain: false, large: false })",
    ),
    (
        "audit -- --help --",
        "Audit(AuditRun { image: \"--help\", dump: \"--\", whole: false, words: false, explain: false, large: false })",
    ),
    (
        "next three.img t18 m new",
        "Next(NextRun { image: \"three.img\", trace: \"t18\", marks: Given(\"m\"), new: \"new\", mutators: 2, fresh: 64, workers: 1, large: false })",
    ),
    (
        "next --mutators 1 --fresh=2 three.img t18 m new",
        "Next(NextRun { image: \"three.img\", trace: \"t18\", marks: Given(\"m\"), new: \"new\", mutators: 1, fresh: 2, workers: 1, large: false })",
    ),
    (
        "next a --mutators=64 t -- -m --fresh",
        "Next(NextRun { image: \"a\", trace: \"t\", marks: Given(\"-m\"), new: \"--fresh\", mutators: 64, fresh: 64, workers: 1, large: false })",
    ),
    (
        "plan --large three.img",
        "Plan { image: \"three.img\", large: true }",
    ),
    (
        "plan -- --large",
        "Plan { image: \"--large\", large: false }",
    ),
    (
        "word three.img --large 2",
        "Word { image: \"three.img\", index: 2, large: true }",
    ),
    (
        "replay --large --fresh 2 a t d",
        "Replay(TraceRun { image: \"a\", trace: \"t\", dump: \"d\", mutators: 2, fresh: 2, large: true })",
    ),
    (
        "race a t d --large",
        "Race(TraceRun { image: \"a\", trace: \"t\", dump: \"d\", mutators: 2, fresh: 64, large: true })",
    ),
    (
        "compact --large --workers 3 a b",
        "Compact { image: \"a\", dump: \"b\", workers: 3, large: true }",
    ),
    (
        "audit a --large b",
        "Audit(AuditRun { image: \"a\", dump: \"b\", whole: false, words: false, explain: false, large: true })",
    ),
    (
        "audit --whole a b",
        "Audit(AuditRun { image: \"a\", dump: \"b\", whole: true, words: false, explain: false, large: false })",
    ),
    (
        "audit a b --words",
        "Audit(AuditRun { image: \"a\", dump: \"b\", whole: false, words: true, explain: false, large: false })",
    ),
    (
        "audit --words a --large b --whole",
        "Audit(AuditRun { image: \"a\", dump: \"b\", whole: true, words: true, explain: false, large: true })",
    ),
    (
        "audit --explain a b",
        "Audit(AuditRun { image: \"a\", dump: \"b\", whole: false, words: false, explain: true, large: false })",
    ),
    (
        "audit --words --explain a b --large --whole",
        "Audit(AuditRun { image: \"a\", dump: \"b\", whole: true, words: true, explain: true, large: true })",
    ),
    (
        "audit a -- --words",
        "Audit(AuditRun { image: \"a\", dump: \"--words\", whole: false, words: false, explain: false, large: false })",
    ),
    (
        "mark three.img new.img",
        "Mark { image: \"three.img\", new: \"new.img\", workers: 2, large: false }",
    ),
    (
        "mark --workers 64 a --large b",
        "Mark { image: \"a\", new: \"b\", workers: 64, large: true }",
    ),
    (
        "mark a -- --large",
        "Mark { image: \"a\", new: \"--large\", workers: 2, large: false }",
    ),
    (
        "mark -- mark --",
        "Mark { image: \"mark\", new: \"--\", workers: 2, large: false }",
    ),
    (
        "collect three.img new.img",
        "Collect { image: \"three.img\", new: \"new.img\", workers: 2, large: false }",
    ),
    (
        "collect --workers 64 a --large b",
        "Collect { image: \"a\", new: \"b\", workers: 64, large: true }",
    ),
    (
        "collect a b --workers=1",
        "Collect { image: \"a\", new: \"b\", workers: 1, large: false }",
    ),
    (
        "collect -- collect --workers",
        "Collect { image: \"collect\", new: \"--workers\", workers: 2, large: false }",
    ),
    (
        "moved three.img three.moved",
        "Moved { image: \"three.img\", moved: \"three.moved\", large: false }",
    ),
    (
        "moved --large a b",
        "Moved { image: \"a\", moved: \"b\", large: true }",
    ),
    (
        "moved a -- --large",
        "Moved { image: \"a\", moved: \"--large\", large: false }",
    ),
    (
        "map three.img out.svg",
        "Map(MapRun { image: \"three.img\", dump: None, out: \"out.svg\", large: false })",
    ),
    (
        "map --dump d --large a b",
        "Map(MapRun { image: \"a\", dump: Some(\"d\"), out: \"b\", large: true })",
    ),
    (
        "map a --dump= b",
        "Map(MapRun { image: \"a\", dump: Some(\"\"), out: \"b\", large: false })",
    ),
    (
        "map a -- --dump",
        "Map(MapRun { image: \"a\", dump: None, out: \"--dump\", large: false })",
    ),
    (
        "next --large a t m n",
        "Next(NextRun { image: \"a\", trace: \"t\", marks: Given(\"m\"), new: \"n\", mutators: 2, fresh: 64, workers: 1, large: true })",
    ),
    (
        "next --reachable three.img t18 new",
        "Next(NextRun { image: \"three.img\", trace: \"t18\", marks: Reachable, new: \"new\", mutators: 2, fresh: 64, workers: 2, large: false })",
    ),
    (
        "next --large a t --fresh 2 n --reachable --",
        "Next(NextRun { image: \"a\", trace: \"t\", marks: Reachable, new: \"n\", mutators: 2, fresh: 2, workers: 2, large: true })",
    ),
    (
        "next --reachable --roots r a t n",
        "Next(NextRun { image: \"a\", trace: \"t\", marks: ReachableFrom(\"r\"), new: \"n\", mutators: 2, fresh: 64, workers: 2, large: false })",
    ),
    (
        "next a t n --roots= --reachable",
        "Next(NextRun { image: \"a\", trace: \"t\", marks: ReachableFrom(\"\"), new: \"n\", mutators: 2, fresh: 64, workers: 2, large: false })",
    ),
    (
        "next --workers 64 --reachable a t n",
        "Next(NextRun { image: \"a\", trace: \"t\", marks: Reachable, new: \"n\", mutators: 2, fresh: 64, workers: 64, large: false })",
    ),
    (
        "next --reachable a --workers=1 t --roots r n",
        "Next(NextRun { image: \"a\", trace: \"t\", marks: ReachableFrom(\"r\"), new: \"n\", mutators: 2, fresh: 64, workers: 1, large: false })",
    ),
    (
        "next a -- t --reachable n",
        "Next(NextRun { image: \"a\", trace: \"t\", marks: Given(\"--reachable\"), new: \"n\", mutators: 2, fresh: 64, workers: 1, large: false })",
    ),
];

#[test]
fn words_ask_for_these_tasks(rt: HostRuntime) {
    expect_tasks(&rt, &TASKS);
}

// Lines that ask for help.
static HELPS: [&str; 24] = [
    "--help",
    "-h",
    "-hx",
    "help",
    "help word",
    "word --help",
    "word three.img -h",
    "help compact",
    "help replay",
    "race --help",
    "race --fresh 2 a -h",
    "compact --help",
    "compact --workers 2 a -h",
    "help audit",
    "audit a --help",
    "help mark",
    "mark a -h",
    "help collect",
    "collect a -h",
    "help moved",
    "moved a -h",
    "help map",
    "map --dump d -h",
    "next --reachable --help",
];

#[test]
fn help_is_printed_for_these_words(rt: HostRuntime) {
    expect_lines(&rt, &HELPS, Answer::Help);
}

// Lines of `next` whose answer shows how it is called.
static USES: [&str; 4] = [
    "next --help",
    "help next",
    "next --reachable --help",
    "next three.img",
];

#[test]
fn both_forms_of_next_are_shown(rt: HostRuntime) {
    let given = "Usage: compressor next [OPTIONS] <IMAGE> <TRACE> <MARKS> <NEW>";
    let reached =
        "compressor next [OPTIONS] --reachable [--roots <ROOTS>] [--workers <N>] <IMAGE> <TRACE> <NEW>";
    expect_lines(&rt, &USES, Answer::Shows(given));
    expect_lines(&rt, &USES, Answer::Shows(reached));
}

// Lines that ask for the version.
static VERSIONS: [AskedTask; 8] = [
    ("--version", "Version"),
    ("-V", "Version"),
    ("-Vh", "Version"),
    ("--version plan", "Version"),
    // Two words alone, and exactly these, ask for the long one.
    ("--version --long", "VersionLong"),
    ("-V --long", "Version"),
    ("--version --long --long", "Version"),
    ("--version --longer", "Version"),
];

#[test]
fn version_is_printed_for_these_words(rt: HostRuntime) {
    expect_tasks(&rt, &VERSIONS);
    assert!(rt; VERSION_LINE == "compressor 1.0.0\n");
}
