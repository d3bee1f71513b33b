//! What a line asks for: a rule, sizes, a key and random bytes.
ghost use Rattle.std.specs.Prelude.{◌≡◌, IfOk};
ghost use Rattle.console.specs.Requests.{view, requested, rule_then, ruled, key_draws, keyed};
ghost use Rattle.std.specs.Option.{option_map};

use inputs::window_rule::WindowRule;
use lines::field::{draws_text, key_text, number_then};
use std::alloc::{AllocError, Global};
use text::fields::cut;

/// A recoding that a line asks for. The numbers are as they stand there, in the limits or not.
#[derive(Drop)]
pub struct Request {
    pub rule: WindowRule,
    pub window_width: u32,
    pub draw_width: u32,
    pub windows: u32,
    pub key: Vec<u32>,
    pub draws: Vec<u8>,
}

impl Request {
    /// The request of a line, `RULE K B M KEY DRAWS` with single spaces: four decimal numbers, the
    /// key as hexadecimal digits, most significant first, and random bytes as pairs of hexadecimal
    /// digits in reading order, or `-` for none. `None` for any other line. Answers `Err` only
    /// where memory fails.
    pub fn read(heap: Global, line: &[u8]) -> Result<Option<Request>, AllocError>
        ensures { IfOk result (λ o. option_map view o ≡ requested line.now) }
    {
        // Not `?`, which passes up the error of memory alone.
        let Some((rule, rest)) = rule_then(line) else {
            return Ok(None);
        };
        let Some((window_width, rest)) = number_then(rest) else {
            return Ok(None);
        };
        let Some((draw_width, rest)) = number_then(rest) else {
            return Ok(None);
        };
        let Some((windows, rest)) = number_then(rest) else {
            return Ok(None);
        };
        let Some(KeyDraws { key, draws }) = key_draws(heap, rest)? else {
            return Ok(None);
        };
        Ok(Some(Request {
            rule,
            window_width,
            draw_width,
            windows,
            key,
            draws,
        }))
    }
}

// The rule of a number, a space, and what comes behind it.
fn rule_then<'a>(text: &'a [u8]) -> Option<(WindowRule, &'a [u8])>
    ensures { option_map ruled result ≡ rule_then text.now }
{
    let (number, rest) = number_then(text)?;
    Some((WindowRule::try_from(number).ok()?, rest))
}

// The last two fields.
#[derive(Drop)]
struct KeyDraws {
    key: Vec<u32>,
    draws: Vec<u8>,
}

// A key, a space and random bytes, to the end.
fn key_draws(heap: Global, text: &[u8]) -> Result<Option<KeyDraws>, AllocError>
    ensures { IfOk result (λ o. option_map keyed o ≡ key_draws text.now) }
{
    // Not `?`, which passes up the error of memory alone.
    let (front, Some(rest)) = cut(text, b' ') else {
        return Ok(None);
    };
    let Some(key) = key_text(heap, front)? else {
        return Ok(None);
    };
    let Some(draws) = draws_text(heap, rest)? else {
        return Ok(None);
    };
    Ok(Some(KeyDraws { key, draws }))
}
