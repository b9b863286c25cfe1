ghost use Rattle.std.specs.Prelude.{◌≡◌, IfOk, Ok, string_bytes};
ghost use Rattle.af_base.specs.Readings.{OrMemory};
ghost use Rattle.af_store.specs.Members.{told_as};
ghost use Rattle.af_store.specs.OpeningLines.{opening_body, opening_of};

use crate::line_fault::LineFault;
use crate::members::text;
use crate::row::row_of;
use crate::told::{Told, body_text};
use json::Scratch;
use sha2::{Digest, Sha256};
use std::alloc::{AllocError, Global};
use std::marker::Model;

/// The configuration that a store was opened with, byte by byte. Contracts see it as its bytes.
#[derive(Drop)]
pub struct Opening {
    config: String,
}

impl Model for Opening {
    ghost use Rattle.std.specs.Prelude.{List, ℕ, string_bytes};

    ghost Value = { List ℕ };

    ghost view = { λ opening. string_bytes opening.config };
}

/// The body of the line that opens a store with this configuration. `AllocError` only where a growth was refused.
pub fn opening_body(alloc: Global, config: &str) -> Result<String, AllocError>
    ensures text { IfOk result (λ text. string_bytes text ≡ opening_body config.now) }
    ensures read_back { IfOk result (λ text. opening_of (string_bytes text) ≡ Ok config.now) }
{
    let text = told_text(alloc, config)?;
    Ok(text)
}

fn told_text(alloc: Global, config: &str) -> Result<String, AllocError>
    ensures { IfOk result (λ text. string_bytes text ≡ opening_body config.now) }
{
    let digest = Sha256::digest(config.as_bytes());
    body_text(
        alloc,
        &[
            ("config", Told::Text(config)),
            ("config_sha256", Told::Digest(digest)),
            ("format", Told::Count(1)),
        ],
    )
}

impl Opening {
    /// The configuration with which this is the body of the line that opens a store. `NotALine` exactly where it is none: also where the format
    /// is another, or the digest not the configuration's; `OutOfMemory` only where a growth was refused.
    pub fn read(alloc: Global, body: &str) -> Result<Opening, LineFault>
        ensures { OrMemory LineFault.OutOfMemory (opening_of body.now) result }
    {
        let mut scratch = Scratch::new(alloc);
        let row = row_of(alloc, body, &mut scratch)?;
        let config = text(&row, "config")?;
        if_told_as(alloc, config, body)
    }

    /// The configuration's text.
    pub fn config(&self) -> &str
        ensures { result.now ≡ self.now }
    {
        self.config.as_str()
    }
}

/// The configuration, if this is the body that opens a store with it.
fn if_told_as(alloc: Global, config: &str, body: &str) -> Result<Opening, LineFault>
    ensures { OrMemory LineFault.OutOfMemory (told_as opening_body body.now config.now) result }
{
    let told = told_text(alloc, config)?;
    if told.as_str() == body {
        let config = String::from_str(alloc, config)?;
        Ok(Opening { config })
    } else {
        Err(LineFault::NotALine)
    }
}
