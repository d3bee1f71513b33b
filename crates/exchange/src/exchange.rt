//! The exchange, on two devices of one type.
ghost use Rattle.std.specs.Prelude.{◌≡◌, true, length, is_some, IfOk, Some};
ghost use Rattle.exchange.specs.Exchanges.{Exchanged, Ran, asking, both_of, brought, going_on, joined, posed};
ghost use Rattle.inputs.specs.Rules.{rule_of};
ghost use Rattle.runs.specs.Tasks.{call};

use common::refusal::Refusal;
use groups::device::GroupDevice;
use inputs::sizes::Sizes;
use inputs::window_rule::WindowRule;
use multiplier::multiply::cells_needed;
use runs::run::run_both;
use runs::task::{Ask, Task};
use std::alloc::{AllocError, Global};

/// What a side brings: its rule and sizes, its key, and the random bytes of both of its
/// multiplications.
#[derive(Drop)]
pub struct Side {
    pub rule: WindowRule,
    pub sizes: Sizes,
    /// The key's words, lowest first.
    pub key: Vec<u32>,
    pub draws: Vec<u8>,
}

/// One of the two sides.
#[derive(Clone, Copy)]
pub enum Party {
    First,
    Second,
}

/// A refusal, and whose call it met.
#[derive(Clone, Copy)]
pub struct Refused {
    pub party: Party,
    pub refusal: Refusal,
}

/// One of each side.
#[derive(Clone, Copy, Drop)]
pub struct Both<T> {
    pub first: T,
    pub second: T,
}

/// What the sides handed over, and what each made of what it got.
#[derive(Clone, Copy)]
pub struct Agreement<E> {
    pub handed: Both<E>,
    pub agreed: Both<E>,
}

/// Each side multiplies the base by its key on its own device, hands the answer over, and
/// multiplies what it got; its draws go on where the first multiplication left them. Both first
/// multiplications are made, and where both are accepted both second ones; of two refusals in one
/// round the first side's is told. Answers `Err` only where memory fails.
pub fn exchange<D: GroupDevice>(
    heap: Global,
    first: &mut D,
    second: &mut D,
    sides: Both<Side>,
    base: D::Element,
) -> Result<Result<Agreement<D::Element>, Refused>, AllocError>
    ensures { IfOk result (Exchanged D.GroupDevice.group D.GroupDevice.tally first.old second.old (brought sides.first) (brought sides.second) base first.new second.new) }
{
    let neutral = first.neutral();
    let tasks = Both {
        first: task(heap, neutral, sides.first, base)?,
        second: task(heap, neutral, sides.second, base)?,
    };
    let tasks = run_round(heap, first, second, tasks)?;
    // A refusal stays apart from memory that fails: the law is about the inner result, and an error
    // enum for both would have each clause set memory aside.
    let handed = match both_answers(answer(&tasks.first), answer(&tasks.second)) {
        Ok(handed) => handed,
        Err(refused) => return Ok(Err(refused)),
    };
    let tasks = run_round(heap, first, second, hand_over(tasks, handed))?;
    let agreed = both_answers(answer(&tasks.first), answer(&tasks.second));
    Ok(join(handed, agreed))
}

// The first multiplication of a side, with cells and digit words enough.
fn task<E: Copy>(
    heap: Global,
    neutral: E,
    side: Side,
    base: E,
) -> Result<Task<E, WindowRule>, AllocError>
    ensures { IfOk result (λ o. posed (call rule_of o) ≡ asking (brought side) base 0) }
{
    let Side {
        rule,
        sizes,
        key,
        draws,
    } = side;
    let cells = fill(heap, neutral, cells_needed(&rule, sizes))?;
    let words = vec![in heap; 0i32; sizes.windows() as usize]?;
    Ok(Task {
        ask: Ask {
            rule,
            sizes,
            key,
            base,
            draws,
            mark: 0,
        },
        cells,
        words,
        mark: 0,
        outcome: None,
    })
}

// So many cells.
fn fill<E: Copy>(heap: Global, element: E, count: usize) -> Result<Vec<E>, AllocError>
    ensures { IfOk result (λ v. length v.items ≡ count) }
{
    // Not `vec!`, which clones: that a clone can't fail is not known of every element that is copied.
    (0..count).map(|_| element).collect(heap)
}

// Makes one multiplication of each side. Its list of one task is a vector: a slice over a single
// value asks that it fits in memory, which the type of a generic element does not say.
fn run_round<D: GroupDevice>(
    heap: Global,
    first: &mut D,
    second: &mut D,
    tasks: Both<Task<D::Element, WindowRule>>,
) -> Result<Both<Task<D::Element, WindowRule>>, AllocError>
    ensures first { IfOk result (λ o. Ran D.GroupDevice.group D.GroupDevice.tally first.old tasks.first first.new o.first) }
    ensures second { IfOk result (λ o. Ran D.GroupDevice.group D.GroupDevice.tally second.old tasks.second second.new o.second) }
{
    let mut first_tasks = Vec::new(heap);
    first_tasks.push(tasks.first)?;
    let mut second_tasks = Vec::new(heap);
    second_tasks.push(tasks.second)?;
    run_both(
        first,
        first_tasks.as_mut_slice(),
        second,
        second_tasks.as_mut_slice(),
    );
    let first_task = first_tasks.pop().unwrap();
    let second_task = second_tasks.pop().unwrap();
    Ok(Both {
        first: first_task,
        second: second_task,
    })
}

// The answer of a task that was run.
fn answer<E: Copy>(task: &Task<E, WindowRule>) -> Result<E, Refusal>
    requires { is_some task.now.outcome ≡ true }
    ensures { task.now.outcome ≡ Some result }
{
    task.outcome.unwrap()
}

// Both answers, or the first refusal of the two.
fn both_answers<E: Copy>(
    first: Result<E, Refusal>,
    second: Result<E, Refusal>,
) -> Result<Both<E>, Refused>
    ensures { result ≡ both_of first second }
{
    let first = first.map_err(|refusal| Refused {
        party: Party::First,
        refusal,
    })?;
    let second = second.map_err(|refusal| Refused {
        party: Party::Second,
        refusal,
    })?;
    Ok(Both { first, second })
}

// What was handed over, with the answers of the second round.
fn join<E: Copy>(handed: Both<E>, agreed: Result<Both<E>, Refused>) -> Result<Agreement<E>, Refused>
    ensures { result ≡ joined handed agreed }
{
    agreed.map(|agreed| Agreement { handed, agreed })
}

// The multiplications of the second round: each on what the other side handed over.
fn hand_over<E: Copy>(
    tasks: Both<Task<E, WindowRule>>,
    handed: Both<E>,
) -> Both<Task<E, WindowRule>>
    ensures first { posed (call rule_of result.first) ≡ going_on (call rule_of tasks.first) handed.second }
    ensures second { posed (call rule_of result.second) ≡ going_on (call rule_of tasks.second) handed.first }
{
    let Both { first, second } = tasks;
    Both {
        first: go_on(first, handed.second),
        second: go_on(second, handed.first),
    }
}

// The multiplication of another base behind the draw of this one.
fn go_on<E: Copy>(task: Task<E, WindowRule>, base: E) -> Task<E, WindowRule>
    ensures { posed (call rule_of result) ≡ going_on (call rule_of task) base }
{
    let mut task = task;
    task.ask.base = base;
    task.ask.mark = task.mark;
    task.outcome = None;
    task
}
