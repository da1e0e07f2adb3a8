// refusals: writes what each refusal's number means, one a line.
#![tactic(auto)]

use book_console::console::Console;
use format::Reason;
use std::fmt::Write;
use std::process::ExitCode;

// Every reason of a refusal, by its number.
const REASONS: [Reason; 20] = [
    Reason::EndsInsideAField,
    Reason::Mark,
    Reason::Version,
    Reason::HeaderCount,
    Reason::LettersNotAscending,
    Reason::FinalFlag,
    Reason::ArcSource,
    Reason::Operation,
    Reason::BytesAfterTheLastArc,
    Reason::JoinedBeyondALimit,
    Reason::TooManyConfigurations,
    Reason::TooManyPlainArcs,
    Reason::TooManyLiveSets,
    Reason::TooLittleMemoryLent,
    Reason::OutputTooShort,
    Reason::LengthTooLarge,
    Reason::ArcLetter,
    Reason::ArcTarget,
    Reason::ArcOperations,
    Reason::BadRanges,
];

// Every refusal, one a line. Cost: the lines.
fn main(rt: HostRuntime) -> ExitCode {
    let console = Console::new(rt);
    for reason in REASONS {
        console.out().number(u64::from(reason.number()));
        let _ = writeln!(console.out(), " {reason}");
    }
    console.last_status()
}
