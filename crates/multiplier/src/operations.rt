//! Runs of a device's operations.
ghost use Rattle.std.specs.Prelude.{◌≡◌, ◌≤◌};
ghost use Rattle.groups.specs.Groups.{added};
ghost use Rattle.groups.specs.Tally.{one_addition};
ghost use Rattle.steps.specs.Operations.{chosen, climbed, doublings};
ghost use Rattle.steps.specs.Work.{many_doublings, many_rounds};

use groups::device::GroupDevice;

// What changes a device says in two clauses that its group stays (`same`) and what it counts
// (`counted`): one fact a clause, since a name for both would take the same arguments again.

// So many doublings of `a`.
pub(crate) fn double_times<D: GroupDevice>(device: &mut D, a: D::Element, count: u32) -> D::Element
    ensures value { result ≡ doublings (D.GroupDevice.group device.old) count a }
    ensures same { D.GroupDevice.group device.new ≡ D.GroupDevice.group device.old }
    ensures counted { D.GroupDevice.tally device.new ≡ many_doublings count (D.GroupDevice.tally device.old) }
{
    let mut result = a;
    for _ in 0..count {
        result = device.double(result);
    }
    result
}

// A round: so many doublings of `a`, then one addition.
pub(crate) fn round<D: GroupDevice>(
    device: &mut D,
    a: D::Element,
    count: u32,
    addend: D::Element,
) -> D::Element
    ensures value { result ≡ added (D.GroupDevice.group device.old) (doublings (D.GroupDevice.group device.old) count a) addend }
    ensures same { D.GroupDevice.group device.new ≡ D.GroupDevice.group device.old }
    ensures counted { D.GroupDevice.tally device.new ≡ one_addition (many_doublings count (D.GroupDevice.tally device.old)) }
{
    let doubled = double_times(device, a, count);
    device.add(doubled, addend)
}

// `a` for the bit 1, neutral for any other.
pub(crate) fn choose<D: GroupDevice>(device: &D, a: D::Element, bit: u32) -> D::Element
    ensures { result ≡ chosen (D.GroupDevice.group device.now) a bit }
{
    if bit == 1 { a } else { device.neutral() }
}

// `s` times `base`, from neutral by the bits of `s`, the highest first.
pub(crate) fn climb<D: GroupDevice>(
    device: &mut D,
    base: D::Element,
    s: u32,
    bits: u32,
) -> D::Element
    requires { bits ≤ 32 }
    ensures value { result ≡ climbed (D.GroupDevice.group device.old) base bits s }
    ensures same { D.GroupDevice.group device.new ≡ D.GroupDevice.group device.old }
    ensures counted { D.GroupDevice.tally device.new ≡ many_rounds bits 1 (D.GroupDevice.tally device.old) }
{
    let mut result = device.neutral();
    // By index, which is the place of a bit in a number: there are no items to go over.
    for i in (0..bits).rev() {
        let addend = choose(device, base, (s >> i) % 2);
        result = round(device, result, 1, addend);
    }
    result
}
