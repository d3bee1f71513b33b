//! How a request is answered: by an exchange on two new devices of its group.
ghost use Rattle.std.specs.Prelude.{◌≡◌, ℕ, IfOk, None};
ghost use Rattle.elements.specs.Elements.{coordinates};
ghost use Rattle.exchange.specs.Exchanges.{brought, worked};
ghost use Rattle.exchange_lines.specs.Answers.{Answered, BothNew, InGroup, OneNew, SizedAs, ToldBy, account_at, answer_from, in_pairs, told_with};
ghost use Rattle.exchange_lines.specs.Requests.{view};
ghost use Rattle.groups.specs.Tally.{zero_tally};
ghost use Rattle.inputs.specs.Sizes.{sizes_refusal};

use crate::request::Request;
use elements::element::Pair;
use elements::kind::GroupKind;
use elements::pair_device::PairDevice;
use exchange::exchange::{Agreement, Both, Party, Refused, Side, exchange};
use groups::clock::Clock;
use groups::curve::Curve;
use groups::device::GroupDevice;
use groups::sums::Sums;
use groups::tally::Tally;
use inputs::sizes::Sizes;
use inputs::window_rule::WindowRule;
use std::alloc::{AllocError, Global};
use steps::plain::tally_after;

/// What is told of a side: what it handed over, what its device counted, and the plain tally of
/// two multiplications.
#[derive(Clone, Copy)]
pub struct Account<E> {
    pub handed: E,
    pub tally: Tally,
    pub plain: Tally,
}

/// What is told of an agreement: the element, and both sides.
#[derive(Clone, Copy)]
pub struct Told<E> {
    pub agreed: E,
    pub accounts: Both<Account<E>>,
}

impl Request {
    /// Sets up two devices of the group (12) and exchanges on them. The first side goes by rule 1
    /// with windows of 5 bits, draws of 12 and 100 windows, the second by rule 3 with windows of 3
    /// bits, draws of 6 and 160 windows. Answers `Err` only where memory fails.
    pub fn answer(self, heap: Global) -> Result<Result<Told<Pair>, Refused>, AllocError>
        ensures { IfOk result (Answered (view self)) }
    {
        let Request {
            kind,
            modulus,
            base,
            keys,
            draws,
        } = self;
        let sides = Both {
            first: Side {
                rule: WindowRule::Shifted,
                sizes: fixed_sizes(5, 12, 100),
                key: keys.first,
                draws: draws.first,
            },
            second: Side {
                rule: WindowRule::Nonzero,
                sizes: fixed_sizes(3, 6, 160),
                key: keys.second,
                draws: draws.second,
            },
        };
        match kind {
            GroupKind::Sums => answer_in::<Sums>(heap, modulus, base, sides),
            GroupKind::Clock => answer_in::<Clock>(heap, modulus, base, sides),
            GroupKind::Curve => answer_in::<Curve>(heap, modulus, base, sides),
        }
    }
}

// Sizes that keep the limits.
fn fixed_sizes(window_width: u32, draw_width: u32, windows: u32) -> Sizes
    requires { sizes_refusal window_width draw_width windows ≡ None }
    ensures { SizedAs window_width draw_width windows result }
{
    Sizes::new(window_width, draw_width, windows).unwrap()
}

// The answer in a group of devices.
fn answer_in<D: PairDevice>(
    heap: Global,
    modulus: u32,
    base: Pair,
    sides: Both<Side>,
) -> Result<Result<Told<Pair>, Refused>, AllocError>
    ensures { IfOk result (InGroup (D.fits modulus) (D.group_at modulus) (brought sides.first) (brought sides.second) (D.element_at base)) }
{
    // A refusal is an answer, and memory that fails is none: so no `?` here, as in `exchange`.
    let Both {
        mut first,
        mut second,
    } = match new_devices::<D>(modulus) {
        Ok(devices) => devices,
        Err(refused) => return Ok(Err(refused)),
    };
    let told = tell(heap, &mut first, &mut second, sides, D::element_at(base))?;
    Ok(as_pairs::<D>(told))
}

// A new device for each side; a modulus that no device can have is refused by the first.
fn new_devices<D: PairDevice>(modulus: u32) -> Result<Both<D>, Refused>
    ensures { BothNew D.group D.tally (D.fits modulus) (D.group_at modulus) result }
{
    let first = set_up::<D>(modulus)?;
    let second = set_up::<D>(modulus)?;
    Ok(Both { first, second })
}

// A new device; a modulus that it can't have is refused by the first side.
fn set_up<D: PairDevice>(modulus: u32) -> Result<D, Refused>
    ensures { OneNew D.group D.tally (D.fits modulus) (D.group_at modulus) result }
{
    D::set_up(modulus).map_err(|refusal| Refused {
        party: Party::First,
        refusal,
    })
}

// Exchanges, and reads the tallies.
fn tell<D: GroupDevice>(
    heap: Global,
    first: &mut D,
    second: &mut D,
    sides: Both<Side>,
    base: D::Element,
) -> Result<Result<Told<D::Element>, Refused>, AllocError>
    ensures { IfOk result (ToldBy D.GroupDevice.group D.GroupDevice.tally first.old second.old (brought sides.first) (brought sides.second) base) }
{
    let plain = Both {
        first: plain(&sides.first),
        second: plain(&sides.second),
    };
    let agreement = exchange(heap, first, second, sides, base)?;
    let counted = Both {
        first: first.tally(),
        second: second.tally(),
    };
    Ok(with_tallies(agreement, counted, plain))
}

// The plain tally of two multiplications of a side, from zero.
fn plain(side: &Side) -> Tally
    ensures { result ≡ worked (brought side.now) (worked (brought side.now) zero_tally) }
{
    let once = tally_after(Tally::zero(), &side.rule, side.sizes);
    tally_after(once, &side.rule, side.sizes)
}

// An agreement with what each device counted, and the plain tallies.
fn with_tallies<E: Copy>(
    agreement: Result<Agreement<E>, Refused>,
    counted: Both<Tally>,
    plain: Both<Tally>,
) -> Result<Told<E>, Refused>
    ensures { result ≡ told_with counted plain agreement }
{
    let Agreement { handed, agreed } = agreement?;
    Ok(Told {
        agreed: agreed.first,
        accounts: Both {
            first: Account {
                handed: handed.first,
                tally: counted.first,
                plain: plain.first,
            },
            second: Account {
                handed: handed.second,
                tally: counted.second,
                plain: plain.second,
            },
        },
    })
}

// What is told, with two numbers for each element.
fn as_pairs<D: PairDevice>(told: Result<Told<D::Element>, Refused>) -> Result<Told<Pair>, Refused>
    ensures { (n : ℕ) → result ≡ answer_from (λ e. coordinates ((D.group_at n).code e)) told }
{
    let Told { agreed, accounts } = told?;
    Ok(Told {
        agreed: D::pair_of(agreed),
        accounts: Both {
            first: account_at(accounts.first, D::pair_of(accounts.first.handed)),
            second: account_at(accounts.second, D::pair_of(accounts.second.handed)),
        },
    })
}

// An account with two numbers for its element.
fn account_at<E: Copy>(account: Account<E>, handed: Pair) -> Account<Pair>
    ensures { result ≡ account_at account handed }
{
    // Field by field, since `..account` can't change the element's type.
    let Account {
        handed: _,
        tally,
        plain,
    } = account;
    Account {
        handed,
        tally,
        plain,
    }
}
