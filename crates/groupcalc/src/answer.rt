//! Asks a device, and shows what it answered.
ghost use Rattle.std.specs.Prelude.{◌≡◌, Some};
ghost use Rattle.groupcalc.specs.Answers.{answer, asked};
ghost use Rattle.groupcalc.specs.Texts.{report_text, unanswered_text};
ghost use Rattle.groupcalc.specs.declared.answer.Unanswered.TheVariants.{Refused, Unreadable};

use super::query::Query;
use common::refusal::Refusal;
use elements::element::Pair;
use elements::kind::{GroupKind, NoSuchGroup};
use elements::pair_device::PairDevice;
use groups::clock::Clock;
use groups::curve::Curve;
use groups::sums::Sums;
use groups::tally::Tally;
use std::fmt;

/// What a device answered about two elements.
#[derive(Clone, Copy)]
pub struct Report {
    pub first: bool,
    pub second: bool,
    pub sum: Pair,
    pub double: Pair,
    pub negative: Pair,
    pub tally: Tally,
}

/// Why a line has no report.
#[derive(Clone, Copy)]
pub enum Unanswered {
    Refused(Refusal),
    Unreadable,
}

impl From<Refusal> for Unanswered {
    ghost from_gives = { λ refusal u. u ≡ Refused refusal };

    fn from(refusal: Refusal) -> Unanswered {
        Unanswered::Refused(refusal)
    }
}

impl From<NoSuchGroup> for Unanswered {
    ghost from_gives = { λ _ u. u ≡ Unreadable };

    fn from(_: NoSuchGroup) -> Unanswered {
        Unanswered::Unreadable
    }
}

/// The answer to what a line asks.
pub fn answer_to(query: Option<Query>) -> Result<Report, Unanswered>
    ensures { result ≡ answer query }
{
    let Query {
        group,
        modulus,
        first,
        second,
    } = query.ok_or(Unanswered::Unreadable)?;
    match GroupKind::try_from(group)? {
        GroupKind::Sums => ask::<Sums>(modulus, Pair { y: 0, ..first }, Pair { y: 0, ..second }),
        GroupKind::Clock => ask::<Clock>(modulus, first, second),
        GroupKind::Curve => ask::<Curve>(modulus, first, second),
    }
}

/// Sets up a device, and makes each of its six calls about two elements.
fn ask<D: PairDevice>(modulus: u32, first: Pair, second: Pair) -> Result<Report, Unanswered>
    ensures { result ≡ asked (D.fits modulus) (D.group_at modulus) (D.element_at first) (D.element_at second) }
{
    let mut device = D::set_up(modulus)?;
    let a = D::element_at(first);
    let b = D::element_at(second);
    Ok(Report {
        first: device.belongs(a),
        second: device.belongs(b),
        sum: D::pair_of(device.add(a, b)),
        double: D::pair_of(device.double(a)),
        negative: D::pair_of(device.negate(a)),
        tally: device.tally(),
    })
}

impl fmt::Display for Report {
    ghost output = { λ report. Some (report_text report) };

    /// Who belongs, the sum, the double, the negative, and the tally.
    fn fmt<W: fmt::Write>(&self, f: &mut fmt::Formatter<W>) -> fmt::Result {
        let Report {
            first,
            second,
            sum,
            double,
            negative,
            tally,
        } = *self;
        write!(f, "ok {first} {second} {sum} {double} {negative} {tally}")
    }
}

impl fmt::Display for Unanswered {
    ghost output = { λ u. Some (unanswered_text u) };

    fn fmt<W: fmt::Write>(&self, f: &mut fmt::Formatter<W>) -> fmt::Result {
        match self {
            Unanswered::Refused(cause) => write!(f, "{cause}"),
            Unanswered::Unreadable => write!(f, "unreadable"),
        }
    }
}
