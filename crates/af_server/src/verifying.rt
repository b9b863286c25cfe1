// Whether the answers that a trace records are those of the run of its steps.
ghost use Rattle.std.specs.Prelude.{◌≡◌, ◌<◌, IfOk, length, Ok, Err};
ghost use Rattle.std.specs.Bool.{Decides};
ghost use Rattle.af_base.specs.JsonValue.{view};
ghost use Rattle.af_base.specs.Readings.{OrMemory, seen};
ghost use Rattle.af_trace.specs.Traces.{Agrees, trace_in};
ghost use Rattle.af_server.specs.declared.reason.Reason.{Reason};
ghost use Rattle.af_server.specs.Configurations.{longest};
ghost use Rattle.af_server.specs.Openings.{opening_of};
ghost use Rattle.af_server.specs.Verified.{IsToldOf, IsVerified, config_in, recorded_in, recorded_of, recorded_under, recorded_with, text_in, trace_of, trace_or};

use crate::config::{Configuration, LONGEST, parse};
use crate::reason::Reason;
use af_base::{Json, member};
use af_trace::Trace;
use af_world::Opening;
use json::Scratch;
use std::alloc::{AllocError, Global};

/// What a trace says: what its world opens with, the steps, and what was answered to each.
pub struct Recorded {
    pub opening: Opening,
    pub trace: Trace,
}

impl Drop for Recorded {
    fn drop(self) {
        let Recorded {
            opening: _,
            trace: _,
        } = self;
    }
}

/// Whether the answers of a trace are those of the run of its steps, in the world under its configuration. The refusals, in their order:
/// that it is too long, or no JSON; that it is no object with a configuration; the configuration's own; that it has not the form of a
/// trace. `Memory` comes only of bytes that are not too long, where a growth was refused before a fault was met.
pub fn verify(alloc: Global, trace: &[u8]) -> Result<bool, Reason>
    ensures verified { IsVerified trace.now result }
    ensures long { longest < length trace.now → result ≡ Err Reason.Unreadable }
{
    match read_trace(alloc, trace) {
        Ok(recorded) => {
            let told = tell_of(alloc, &recorded);
            drop(recorded);
            told
        }
        Err(reason) => Err(reason),
    }
}

/// Tells whether the answers that were recorded are those of the run of the steps; `Memory` only where a growth was refused.
fn tell_of(alloc: Global, recorded: &Recorded) -> Result<bool, Reason>
    ensures { IsToldOf (Ok recorded.now) result }
{
    match agrees(alloc, recorded) {
        Ok(told) => Ok(told),
        Err(_) => Err(Reason::Memory),
    }
}

/// Reads what the bytes of a trace say.
fn read_trace(alloc: Global, bytes: &[u8]) -> Result<Recorded, Reason>
    ensures read { OrMemory Reason.Memory (trace_of bytes.now) result }
    ensures long { longest < length bytes.now → result ≡ Err Reason.Unreadable }
{
    if bytes.len() > LONGEST {
        return Err(Reason::Unreadable);
    }
    read_text(alloc, bytes)
}

/// Reads what a text of JSON says as a trace.
fn read_text(alloc: Global, bytes: &[u8]) -> Result<Recorded, Reason>
    ensures { OrMemory Reason.Memory (text_in bytes.now) result }
{
    let mut scratch = Scratch::new(alloc);
    let value = parse(alloc, bytes, &mut scratch)?;
    read_recorded(alloc, &value)
}

/// Whether the answers are those of the run of the steps.
fn agrees(alloc: Global, recorded: &Recorded) -> Result<bool, AllocError>
    ensures { IfOk result (λ yes. Decides yes (Agrees recorded.now.opening recorded.now.trace)) }
{
    recorded.trace.agrees(alloc, &recorded.opening)
}

/// Reads what a JSON value says as a trace.
fn read_recorded(alloc: Global, value: &Json<'_>) -> Result<Recorded, Reason>
    ensures { OrMemory Reason.Memory (recorded_in (view value.now)) result }
{
    let config = config_of(value)?;
    read_under(alloc, value, config)
}

/// Reads what a JSON value says as a trace under this configuration.
fn read_under(alloc: Global, value: &Json<'_>, config: &Json<'_>) -> Result<Recorded, Reason>
    ensures { OrMemory Reason.Memory (recorded_under (view value.now) (view config.now)) result }
{
    let configuration = Configuration::of_value(alloc, config)?;
    with_steps(alloc, value, configuration)
}

/// Reads the steps of a trace, and what was answered to each, in the world under this configuration.
fn with_steps(
    alloc: Global,
    value: &Json<'_>,
    configuration: Configuration,
) -> Result<Recorded, Reason>
    ensures { OrMemory Reason.Memory (recorded_with (view value.now) configuration) result }
{
    match read_steps(alloc, value) {
        Ok(trace) => Ok(under(configuration, trace)),
        Err(reason) => {
            drop(configuration);
            Err(reason)
        }
    }
}

/// This trace, in the world under this configuration.
fn under(configuration: Configuration, trace: Trace) -> Recorded
    ensures { result ≡ recorded_of configuration trace }
{
    let opening = opening_of(configuration, trace.sessions());
    Recorded { opening, trace }
}

/// Reads the steps, and what was answered to each.
fn read_steps(alloc: Global, value: &Json<'_>) -> Result<Trace, Reason>
    ensures { OrMemory Reason.Memory (trace_or (trace_in (view value.now))) result }
{
    Ok(Trace::read(alloc, value)?)
}

/// The configuration of a trace.
fn config_of<'v, 'a>(value: &'v Json<'a>) -> Result<&'v Json<'a>, Reason>
    ensures { seen (λ config. view config.now) result ≡ config_in (view value.now) }
{
    match member(value, "config") {
        Some(config) => Ok(config),
        None => Err(Reason::Trace),
    }
}

/// What the world under a configuration opens with, where there are so many sessions.
fn opening_of(configuration: Configuration, sessions: u32) -> Opening
    ensures { result ≡ opening_of configuration sessions }
{
    let Configuration {
        policy,
        state,
        limits,
        ..
    } = configuration;
    Opening::of(policy, limits.versions, state, limits.history, sessions)
}
