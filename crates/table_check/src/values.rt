//! Values come under numbers, are written, and go.

ghost use Rattle.std.specs.Prelude.{◌≡◌, IsTrue, None};
ghost use Rattle.numbered.specs.Lists.{at};

use numbered::Numbered;
use std::alloc::Global;
use std::process::Abort;

fn is_vacant(values: &Numbered<u16>, n: u64) -> bool
    ensures { IsTrue result → at values.now.items n ≡ None }
{
    values.get(n).is_none()
}

fn put(rt: &impl Abort, values: &mut Numbered<u16>, n: u64, value: u16) {
    values.reserve(1).expect(rt, "memory is ample");
    assert!(rt; n < u64::MAX);
    values.reach(n);
    assert!(rt; is_vacant(values, n));
    values.fill(n, value);
}

fn value_of(values: &Numbered<u16>, n: u64) -> Option<u16> {
    values.get(n).copied()
}

fn write(values: &mut Numbered<u16>, n: u64, value: u16) {
    if let Some(place) = values.get_mut(n) {
        *place = value;
    }
}

/// Numbers with their values.
static VALUES: [(u64, u16); 5] = [
    (3, 30),
    (0, 1),
    (18_446_744_073_709_551_614, 7),
    (40_000, 4),
    (4, 5),
];

fn filled(rt: &impl Abort, alloc: Global) -> Numbered<u16> {
    let mut values = Numbered::new(alloc);
    for (number, value) in &VALUES {
        put(rt, &mut values, *number, *value);
    }
    values
}

#[test]
fn each_number_has_its_own_value(rt: HostRuntime) {
    let mut values = filled(&rt, rt.alloc());
    write(&mut values, 40_000, 44);
    write(&mut values, 1, 45);
    let expected = [
        (3, Some(30)),
        (0, Some(1)),
        (1, None),
        (40_000, Some(44)),
        (4, Some(5)),
    ];
    for (number, value) in expected {
        assert!(rt; value_of(&values, number) == value, "{number}");
    }
}

#[test]
fn each_value_goes_once(rt: HostRuntime) {
    let mut values = filled(&rt, rt.alloc());
    for (number, value) in &VALUES {
        assert!(rt; values.remove(*number) == Some(*value), "{number}");
        assert!(rt; values.remove(*number).is_none(), "{number}");
    }
}

#[test]
fn ample_memory_serves_a_thousand_values_one_after_another(rt: HostRuntime) {
    let mut values = Numbered::new(rt.alloc());
    for number in 0..1_000 {
        put(&rt, &mut values, number, 9);
        assert!(rt; values.remove(number) == Some(9));
    }
}

#[test]
fn there_is_no_room_for_more_than_the_most(rt: HostRuntime) {
    let mut values = filled(&rt, rt.alloc());
    assert!(rt; values.reserve(4_294_967_296).is_err());
}
