//! The world of a test without an account: what an expert's calls read and change.
ghost use Rattle.std.specs.Prelude.{◌≡◌, ◌+◌, ◌<◌, ◌≤◌, IfOk};
ghost use Rattle.std.specs.Bool.{MatchBool};
ghost use Rattle.fx8.specs.Integers as integers;
ghost use Rattle.tester_world.specs.Journal.{journal_bytes, line_bytes};
ghost use Rattle.tester_world.specs.World as world;
ghost use Rattle.tester_world.specs.World.{TesterState, TesterStep, Gives};

use crate::asked::{Asked, asked_by};
use crate::journal::{JOURNAL_LIMIT, line_bytes, printed};
use crate::printed::{PrintList, Printed};
use fx8::{IntKind, ItemList, OutOfMemory, Text, wrap};
use mql_mean::{ErrorKind, HostCall, HostEnd, Reply, Value};
use native_formats::format;
use natives::native_at;
use stack_world::World;
use std::alloc::Global;
use std::marker::Model;

/// The number of the last error where an argument is out of range (MQL5 Reference, Runtime Errors,
/// ERR_INVALID_PARAMETER).
const INVALID_PARAMETER: u16 = 4003;

/// `SYMBOL`, the name of the tested symbol.
const SYMBOL: [u16; 6] = [83, 89, 77, 66, 79, 76];

/// The world of a test without an account.
#[derive(Drop)]
pub struct TesterWorld {
    alloc: Global,
    prints: PrintList,
    bytes_taken: u64,
    time_ms: i64,
    generator: u32,
    last_error: u16,
    reason: i32,
    removal: bool,
}

impl Model for TesterWorld {
    ghost use Rattle.std.specs.Prelude.{◌≡◌, ◌≤◌};
    ghost use Rattle.tester_world.specs.World.{TesterState};
    ghost use Rattle.tester_world.specs.Journal.{journal_bytes};

    ghost Value = { TesterState };

    ghost view = { λ w. record {
      prints = w.prints;
      time = w.time_ms;
      generator = w.generator;
      last_error = w.last_error;
      reason = w.reason;
      removal = w.removal;
    } };

    ghost invariant = { λ w. (w.bytes_taken ≡ journal_bytes w.prints) × (w.bytes_taken ≤ 1048576) };
}

/// The reply of a call that writes to no reference argument.
fn reply(alloc: Global, value: Value) -> Reply
    ensures { result ≡ world.reply value }
{
    Reply {
        value,
        outs: ItemList::new(alloc),
    }
}

/// A whole number as a value of `int`.
fn int(number: i128) -> Value
    ensures { result ≡ world.int number }
{
    Value::Num(IntKind::Int, number)
}

/// The number that a call's first argument is; 0 where it is none, which typing excludes.
fn first_number(values: &[Value]) -> i128
    ensures { result ≡ world.first_number values.now }
{
    match values {
        [Value::Num(_, number), ..] => *number,
        _ => 0,
    }
}

/// What MathRand's generator becomes (MQL5 Reference, MathRand; the numbers are this project's own).
fn drawn(generator: u32) -> u32
    ensures { result ≡ world.drawn generator }
{
    let next = (1_103_515_245 * u64::from(generator) + 12_345) % 4_294_967_296;
    next as u32
}

/// The state of a generator that MathSrand sets.
fn seeded(number: i128) -> u32
    ensures { result ≡ world.seeded number }
{
    wrap(IntKind::Uint, number) as u32
}

/// A last error as 16 bits hold it; numbers past them are no last errors.
fn error_number(number: i128) -> u16
    ensures { result ≡ world.error_number number }
{
    wrap(IntKind::Ushort, number) as u16
}

impl TesterWorld {
    /// The world before the first quote: nothing printed, no time, no error, the generator at its default state.
    pub fn new(alloc: Global) -> TesterWorld
        ensures { result ≡ world.opening_state }
    {
        TesterWorld {
            alloc,
            prints: ItemList::new(alloc),
            bytes_taken: 0,
            time_ms: 0,
            generator: 1,
            last_error: 0,
            reason: 0,
            removal: false,
        }
    }

    /// A loud quote of this time, in milliseconds since 1970, has come.
    pub fn set_time(&mut self, time_ms: i64)
        ensures { self.new ≡ world.at_time self.old time_ms }
    {
        self.time_ms = time_ms;
    }

    /// The expert ends for this reason (MQL5 Reference, Uninitialization Reason Codes).
    pub fn set_reason(&mut self, reason: i32)
        ensures { self.new ≡ world.with_reason self.old reason }
    {
        self.reason = reason;
    }

    /// Whether the expert asked for its removal.
    pub fn removal_asked(&self) -> bool
        ensures { result ≡ self.now.removal }
    {
        self.removal
    }

    /// What was printed.
    pub fn into_prints(self) -> PrintList
        ensures { result ≡ self.prints }
    {
        self.prints
    }

    /// Whether a line fits into the journal; then it stands there.
    fn add_line(&mut self, text: Text, bytes: u64) -> Result<bool, OutOfMemory>
        requires { bytes ≡ line_bytes text }
        ensures { IfOk result (λ fits. MatchBool fits
            ((journal_bytes self.old.prints + line_bytes text ≤ 1048576)
            × (self.new ≡ world.with_line self.old text))
            ((1048576 < journal_bytes self.old.prints + line_bytes text) × (self.new ≡ self.old))) }
    {
        if bytes > JOURNAL_LIMIT - self.bytes_taken {
            return Ok(false);
        }
        let time_ms = self.time_ms;
        self.prints.push(Printed { time_ms, text })?;
        self.bytes_taken += bytes;
        Ok(true)
    }

    /// A line is printed.
    fn print_line(&mut self, text: Text) -> Result<Reply, HostEnd>
        ensures { Gives (world.prints self.old text) result self.new }
    {
        let bytes = match line_bytes(self.alloc, &text) {
            Ok(bytes) => bytes,
            Err(OutOfMemory) => return Err(HostEnd::OutOfMemory),
        };
        match self.add_line(text, bytes) {
            Ok(true) => Ok(reply(self.alloc, int(0))),
            Ok(false) => Err(HostEnd::Error(ErrorKind::PrintsExhausted)),
            Err(OutOfMemory) => Err(HostEnd::OutOfMemory),
        }
    }

    /// Print.
    fn print(&mut self, values: &[Value]) -> Result<Reply, HostEnd>
        ensures { Gives (world.prints_values self.old values.now) result self.new }
    {
        match printed(self.alloc, values) {
            Ok(Some(text)) => self.print_line(text),
            Ok(None) => Ok(self.no_reply()),
            Err(OutOfMemory) => Err(HostEnd::OutOfMemory),
        }
    }

    /// PrintFormat with its format and the arguments behind it.
    fn print_format(&mut self, text: &[u16], values: &[Value]) -> Result<Reply, HostEnd>
        ensures { Gives (world.prints_format self.old text.now values.now) result self.new }
    {
        match format(self.alloc, text, values) {
            Ok(Ok(text)) => self.print_line(text),
            Ok(Err(_)) => Err(HostEnd::Error(ErrorKind::FixedOverflow)),
            Err(OutOfMemory) => Err(HostEnd::OutOfMemory),
        }
    }

    /// PrintFormat.
    fn print_formatted(&mut self, values: &[Value]) -> Result<Reply, HostEnd>
        ensures { Gives (world.prints_formatted self.old values.now) result self.new }
    {
        match values {
            [Value::Str(text), rest @ ..] => self.print_format(text.as_slice(), rest),
            _ => Ok(self.no_reply()),
        }
    }

    /// A reply that no native function may give.
    fn no_reply(&self) -> Reply
        ensures { result ≡ world.no_reply }
    {
        reply(self.alloc, Value::Ptr(0))
    }

    /// MathRand.
    fn draw(&mut self) -> Value
        ensures value { result ≡ world.drawn_number self.old }
        ensures state { self.new ≡ world.with_generator self.old (world.drawn self.old.generator) }
    {
        self.generator = drawn(self.generator);
        int(i128::from(self.generator / 65_536 % 32_768))
    }

    /// The time of the last loud quote, in whole seconds since 1970; 0 before it.
    fn time(&self) -> Value
        ensures { result ≡ world.time_value self.now }
    {
        Value::Num(
            IntKind::Datetime,
            i128::from(self.time_ms.unsigned_abs() / 1_000),
        )
    }

    /// Symbol.
    fn symbol(&self) -> Result<Value, OutOfMemory>
        ensures { IfOk result (λ v. v ≡ world.symbol_value) }
    {
        let text = Text::from_slice(self.alloc, SYMBOL.as_slice())?;
        Ok(Value::Str(text))
    }

    /// MQLInfoInteger.
    fn information(&mut self, number: i128) -> Value
        ensures value { result ≡ world.information number }
        ensures state { self.new ≡ world.after_information self.old number }
    {
        if number == 0 {
            return int(1);
        }
        if number != 1 {
            self.last_error = INVALID_PARAMETER;
        }
        int(0)
    }
}

impl TesterWorld {
    /// What a call gets.
    fn respond(&mut self, asked: Asked, values: &[Value]) -> Result<Reply, HostEnd>
        ensures { Gives (world.responds self.old asked values.now) result self.new }
    {
        let value = match asked {
            Asked::Print => return self.print(values),
            Asked::PrintFormat => return self.print_formatted(values),
            Asked::MathRand => self.draw(),
            Asked::MathSrand => {
                self.generator = seeded(first_number(values));
                int(0)
            }
            Asked::Time => self.time(),
            Asked::ExpertRemove => {
                self.removal = true;
                int(0)
            }
            Asked::GetLastError => int(i128::from(self.last_error)),
            Asked::ResetLastError => {
                self.last_error = 0;
                int(0)
            }
            Asked::SetLastError => {
                self.last_error = error_number(first_number(values));
                int(0)
            }
            Asked::Symbol => match self.symbol() {
                Ok(value) => value,
                Err(OutOfMemory) => return Err(HostEnd::OutOfMemory),
            },
            Asked::Period => int(1),
            Asked::UninitializeReason => int(i128::from(self.reason)),
            Asked::MqlInfoInteger => self.information(first_number(values)),
            Asked::Missing => return Ok(self.no_reply()),
        };
        Ok(reply(self.alloc, value))
    }
}

impl World for TesterWorld {
    ghost use Rattle.tester_world.specs.World.{TesterStep};

    ghost answers = { TesterStep };

    #[tactic(auto, unfolding(crate::specs::World::response))]
    fn ask(&mut self, call: &HostCall) -> Result<Reply, HostEnd> {
        let asked = asked_by(native_at(call.id));
        self.respond(asked, call.args.as_slice())
    }
}
