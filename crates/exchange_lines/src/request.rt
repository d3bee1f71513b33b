//! What a line asks for: a group, a base, and the keys and random bytes of both sides.
ghost use Rattle.std.specs.Prelude.{◌≡◌, IfOk};
ghost use Rattle.exchange_lines.specs.Requests.{draws_both, draws_view, key_draws, key_view, place_then, placed, requested, secrets, secrets_view, view};
ghost use Rattle.std.specs.Option.{option_map};

use elements::element::Pair;
use elements::kind::GroupKind;
use exchange::exchange::Both;
use lines::field::{draws_text, key_text, number_then};
use std::alloc::{AllocError, Global};
use text::fields::cut;

/// An exchange that a line asks for. The numbers are as they stand there, in the limits or not.
#[derive(Drop)]
pub struct Request {
    pub kind: GroupKind,
    pub modulus: u32,
    pub base: Pair,
    pub keys: Both<Vec<u32>>,
    pub draws: Both<Vec<u8>>,
}

impl Request {
    /// The request of a line, `GROUP MODULUS X Y KEY1 KEY2 DRAWS1 DRAWS2` with single spaces: four
    /// decimal numbers, the first of them 1 to 3, two keys as hexadecimal digits, and random bytes
    /// as pairs of hexadecimal digits, or `-` for none, twice. `None` for any other line. Answers
    /// `Err` only where memory fails.
    pub fn read(heap: Global, line: &[u8]) -> Result<Option<Request>, AllocError>
        ensures { IfOk result (λ o. option_map view o ≡ requested line.now) }
    {
        let Some(
            Place {
                kind,
                modulus,
                base,
                rest,
            },
        ) = place_then(line)
        else {
            return Ok(None);
        };
        let Some(Secrets { keys, draws }) = read_secrets(heap, rest)? else {
            return Ok(None);
        };
        Ok(Some(Request {
            kind,
            modulus,
            base,
            keys,
            draws,
        }))
    }
}

// Where an exchange takes place, the first four fields, and what comes behind them.
#[derive(Clone, Copy)]
struct Place<'a> {
    kind: GroupKind,
    modulus: u32,
    base: Pair,
    rest: &'a [u8],
}

// The first four fields.
fn place_then<'a>(text: &'a [u8]) -> Option<Place<'a>>
    ensures { option_map placed result ≡ place_then text.now }
{
    let (number, rest) = number_then(text)?;
    let kind = GroupKind::try_from(number).ok()?;
    let (modulus, rest) = number_then(rest)?;
    let (x, rest) = number_then(rest)?;
    let (y, rest) = number_then(rest)?;
    Some(Place {
        kind,
        modulus,
        base: Pair { x, y },
        rest,
    })
}

// The last four fields.
#[derive(Drop)]
struct Secrets {
    keys: Both<Vec<u32>>,
    draws: Both<Vec<u8>>,
}

// Two keys and two times random bytes, to the end. Memory that fails is the error here, and a field
// that can't be read is none: so a `let .. else` for each, in place of a `?`.
fn read_secrets(heap: Global, text: &[u8]) -> Result<Option<Secrets>, AllocError>
    ensures { IfOk result (λ o. option_map secrets_view o ≡ secrets text.now) }
{
    let (front, rest) = cut(text, b' ');
    let Some(rest) = rest else {
        return Ok(None);
    };
    let Some(first) = key_text(heap, front)? else {
        return Ok(None);
    };
    let Some((second, draws)) = read_key_draws(heap, rest)? else {
        return Ok(None);
    };
    Ok(Some(Secrets {
        keys: Both { first, second },
        draws,
    }))
}

// A key and two times random bytes, to the end.
fn read_key_draws(
    heap: Global,
    text: &[u8],
) -> Result<Option<(Vec<u32>, Both<Vec<u8>>)>, AllocError>
    ensures { IfOk result (λ o. option_map key_view o ≡ key_draws text.now) }
{
    let (front, rest) = cut(text, b' ');
    let Some(rest) = rest else {
        return Ok(None);
    };
    let Some(key) = key_text(heap, front)? else {
        return Ok(None);
    };
    let Some(draws) = read_draws(heap, rest)? else {
        return Ok(None);
    };
    Ok(Some((key, draws)))
}

// Two times random bytes, to the end.
fn read_draws(heap: Global, text: &[u8]) -> Result<Option<Both<Vec<u8>>>, AllocError>
    ensures { IfOk result (λ o. option_map draws_view o ≡ draws_both text.now) }
{
    let (front, rest) = cut(text, b' ');
    let Some(rest) = rest else {
        return Ok(None);
    };
    let Some(first) = draws_text(heap, front)? else {
        return Ok(None);
    };
    let Some(second) = draws_text(heap, rest)? else {
        return Ok(None);
    };
    Ok(Some(Both { first, second }))
}
