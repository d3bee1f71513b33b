//! Reads lines of six decimal numbers from bytes of any content.
ghost use Rattle.std.specs.Prelude.{◌≡◌};
ghost use Rattle.std.specs.Option.{option_map};
ghost use Rattle.groupcalc.specs.Queries.{asked_in, at_end, first_other, number_then, pair_then, returned, unblanked};

use elements::element::Pair;
use text::decimal::decimal;
use text::fields::cut;

/// What a line asks: of which group, over which modulus, about which two elements.
#[derive(Clone, Copy)]
pub struct Query {
    pub group: u32,
    pub modulus: u32,
    pub first: Pair,
    pub second: Pair,
}

impl Query {
    /// What a line asks, or `None` if it is not six decimal numbers of at most 32 bits, with blanks
    /// between them.
    pub fn read(line: &[u8]) -> Option<Query>
        ensures { result ≡ asked_in line.now }
    {
        let (group, rest) = number_then(line)?;
        let (modulus, rest) = number_then(rest)?;
        let (first, rest) = pair_then(rest)?;
        let (second, rest) = pair_then(rest)?;
        let query = Query {
            group,
            modulus,
            first,
            second,
        };
        at_end(rest, query)
    }
}

/// The query, if nothing but blanks comes behind it.
fn at_end(rest: &[u8], query: Query) -> Option<Query>
    ensures { result ≡ at_end (unblanked rest.now) query }
{
    match unblanked(rest) {
        [] => Some(query),
        _ => None,
    }
}

/// Two numbers, and what comes behind them.
fn pair_then<'a>(text: &'a [u8]) -> Option<(Pair, &'a [u8])>
    ensures { option_map returned result ≡ pair_then text.now }
{
    let (x, rest) = number_then(text)?;
    let (y, rest) = number_then(rest)?;
    Some((Pair { x, y }, rest))
}

/// The number that a text begins with behind any blanks, and what comes behind it.
fn number_then<'a>(text: &'a [u8]) -> Option<(u32, &'a [u8])>
    ensures { option_map returned result ≡ number_then text.now }
{
    let (digits, rest) = cut(unblanked(text), b' ');
    Some((decimal(digits)?, rest.unwrap_or(&[])))
}

/// A text without the blanks that it begins with.
fn unblanked<'a>(text: &'a [u8]) -> &'a [u8]
    ensures { result.now ≡ unblanked text.now }
{
    match first_other(text) {
        Some(i) => &text[i..],
        None => &[],
    }
}

/// Where the first byte stands that is no blank, if there is one.
fn first_other(text: &[u8]) -> Option<usize>
    ensures { result ≡ first_other text.now }
{
    text.iter().position(|byte| *byte != b' ')
}
