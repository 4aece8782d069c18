//! The report of a test.
ghost use Rattle.std.specs.Prelude.{◌≡◌, ℤ, pos, [], ◌∷◌, ◌++◌, ◌≤ℤ◌, ◌<ℤ◌, length, IfOk, OnOk, codes, All};
ghost use Rattle.std.specs.Fmt.{decimal, signed_decimal};
ghost use Rattle.tester_cli.specs.Report.{error_name, end_text, settings_lines, number_line, end_line, IsPrintLine, ArePrintLines, report_head, IsReport};
ghost use Rattle.report.specs.Times.{IsReportTime};
ghost use Rattle.report.specs.Pieces.{Appends};

use fx8::{OutOfMemory, Text8};
use mql_mean::ErrorKind;
use report::push_time;
use std::alloc::Global;
use tester_answer::text::push_number;
use tester_pass::{PassEnd, PassResult};
use tester_world::{Printed, push_shown};

fn error_name(kind: ErrorKind) -> &'static str
    ensures { result.now ≡ error_name kind }
{
    match kind {
        ErrorKind::ZeroDivide => "ZeroDivide",
        ErrorKind::ArrayRange => "ArrayRange",
        ErrorKind::InvalidPointer => "InvalidPointer",
        ErrorKind::StackOverflow => "StackOverflow",
        ErrorKind::FixedOverflow => "FixedOverflow",
        ErrorKind::CellsExhausted => "CellsExhausted",
        ErrorKind::PureCall => "PureCall",
        ErrorKind::BadCast => "BadCast",
        ErrorKind::PrintsExhausted => "PrintsExhausted",
        ErrorKind::DealsExhausted => "DealsExhausted",
        ErrorKind::RequestsExhausted => "RequestsExhausted",
        ErrorKind::MathDomain => "MathDomain",
    }
}

fn push_signed(text: &mut Text8, number: i32) -> Result<(), OutOfMemory>
    ensures { OnOk result (text.new ≡ text.old ++ signed_decimal number) }
{
    let mut buffer = itoa::Buffer::new();
    text.extend_from_slice(buffer.format(number).as_bytes())
}

#[tactic(auto, using(crate::proofs::ReportLemmas::two_pieces))]
fn push_end(text: &mut Text8, end: &PassEnd) -> Result<(), OutOfMemory>
    ensures { OnOk result (text.new ≡ text.old ++ end_text end.now) }
{
    match end {
        PassEnd::Completed => text.extend_from_slice(b"Completed"),
        PassEnd::InitFailed(answer) => {
            text.extend_from_slice(b"InitFailed:")?;
            push_signed(text, *answer)
        }
        PassEnd::Removed => text.extend_from_slice(b"Removed"),
        PassEnd::Exhausted => text.extend_from_slice(b"Exhausted"),
        PassEnd::Stopped => text.extend_from_slice(b"Stopped"),
        PassEnd::Stuck => text.extend_from_slice(b"Stuck"),
        PassEnd::Error(error) => {
            text.extend_from_slice(b"Error:")?;
            text.extend_from_slice(error_name(error.kind).as_bytes())?;
            text.push(b':')?;
            push_number(text, u64::from(error.line))
        }
    }
}

#[tactic(auto, using(crate::proofs::ReportLemmas::print_line))]
fn push_print(alloc: Global, text: &mut Text8, printed: &Printed) -> Result<(), OutOfMemory>
    requires { IsReportTime printed.now.time_ms }
    ensures { OnOk result (Appends (IsPrintLine printed.now) text.old text.new) }
{
    push_time(text, printed.time_ms)?;
    text.push(b' ')?;
    push_shown(alloc, text, printed.text.as_slice())?;
    text.push(b'\n')
}

fn push_prints(alloc: Global, text: &mut Text8, prints: &[Printed]) -> Result<(), OutOfMemory>
    requires { All (λ printed. IsReportTime printed.time_ms) prints.now }
    ensures { OnOk result (Appends (ArePrintLines prints.now) text.old text.new) }
{
    for printed in prints {
        push_print(alloc, text, printed)?;
    }
    Ok(())
}

#[tactic(auto, unfolding(crate::specs::Report::settings_lines))]
fn push_settings(text: &mut Text8) -> Result<(), OutOfMemory>
    ensures { OnOk result (text.new ≡ text.old ++ settings_lines) }
{
    text.extend_from_slice(b"report 1\nsymbol SYMBOL\nperiod M1\nmode open\n")
}

#[tactic(auto, unfolding(crate::specs::Report::number_line), using(crate::proofs::ReportLemmas::three_pieces))]
fn push_number_line(text: &mut Text8, label: &[u8], number: u64) -> Result<(), OutOfMemory>
    ensures { OnOk result (text.new ≡ text.old ++ number_line label.now number) }
{
    text.extend_from_slice(label)?;
    push_number(text, number)?;
    text.push(b'\n')
}

#[tactic(auto, unfolding(crate::specs::Report::end_line), using(crate::proofs::ReportLemmas::three_pieces))]
fn push_end_line(text: &mut Text8, end: &PassEnd) -> Result<(), OutOfMemory>
    ensures { OnOk result (text.new ≡ text.old ++ end_line end.now) }
{
    text.extend_from_slice(b"end ")?;
    push_end(text, end)?;
    text.push(b'\n')
}

#[tactic(auto, unfolding(crate::specs::Report::report_head), using(crate::proofs::ReportLemmas::five_pieces))]
fn push_head(text: &mut Text8, outcome: &PassResult) -> Result<(), OutOfMemory>
    ensures { OnOk result (text.new ≡ text.old ++ report_head outcome.now) }
{
    push_settings(text)?;
    push_number_line(text, b"quotes ", outcome.quotes)?;
    push_number_line(text, b"loud ", outcome.loud)?;
    push_end_line(text, &outcome.end)?;
    push_number_line(text, b"prints ", outcome.prints.len())
}

/// The report of a test: the settings, what the pass came to, and what the expert printed. It asks that the
/// prints have times of the years 1970 to 2999.
pub fn report_text(alloc: Global, outcome: &PassResult) -> Result<Text8, OutOfMemory>
    requires { All (λ printed. IsReportTime printed.time_ms) outcome.now.prints }
    ensures { IfOk result (λ text. IsReport outcome.now text) }
{
    let mut text = Text8::new(alloc);
    push_head(&mut text, outcome)?;
    push_prints(alloc, &mut text, outcome.prints.as_slice())?;
    Ok(text)
}
