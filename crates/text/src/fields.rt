//! Cutting a line of bytes into fields.
ghost use Rattle.std.specs.Prelude.{◌≡◌, ◌<◌, ◌==◌, length, position, IfSome};
ghost use Rattle.std.specs.Option.{option_map};
ghost use Rattle.text.specs.Fields.{before, behind};

/// Cuts `text` at the first byte `at`: the bytes before it, and those behind it.
///
/// Where no byte is `at`, all of `text` is before it, and there is no rest.
#[tactic(auto, using(crate::proofs::Cutting::cutting))]
pub fn cut<'a>(text: &'a [u8], at: u8) -> (&'a [u8], Option<&'a [u8]>)
    ensures front { result.0.now ≡ before at text.now }
    ensures rest { option_map (λ x. x.now) result.1 ≡ behind at text.now }
    ensures shorter { IfSome result.1 (λ x. length x.now < length text.now) }
{
    match first_place(text, at) {
        Some(i) => (&text[..i], Some(&text[i + 1..])),
        None => (text, None),
    }
}

// Where the first byte `at` stands, if there is one.
fn first_place(text: &[u8], at: u8) -> Option<usize>
    ensures { result ≡ position (λ x. x == at) text.now }
{
    text.iter().position(|byte| *byte == at)
}
