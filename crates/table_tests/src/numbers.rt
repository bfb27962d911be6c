// Sets of numbers below a bound.
use crate::made::made;
use crate::same::same;
use number_set::NumberSet;

#[test]
fn numbers_come_and_go(rt: HostRuntime) {
    let mut numbers = made(&rt, NumberSet::boot(rt.alloc(), 70));
    same(&rt, numbers.least_absent(0), Some(0));
    numbers.insert(0);
    numbers.insert(0);
    numbers.insert(2);
    same(&rt, numbers.least_absent(0), Some(1));
    same(&rt, numbers.least_absent(2), Some(3));
    numbers.remove(0);
    numbers.remove(1);
    same(&rt, numbers.least_absent(0), Some(0));
    same(&rt, numbers.least_absent(69), Some(69));
    same(&rt, numbers.least_absent(70), None);
    same(&rt, numbers.least_absent(usize::MAX), None);
}

#[test]
fn full_words_are_passed(rt: HostRuntime) {
    let mut numbers = made(&rt, NumberSet::boot(rt.alloc(), 4200));
    for n in 0..4160 {
        numbers.insert(n);
    }
    same(&rt, numbers.least_absent(0), Some(4160));
    numbers.remove(4100);
    numbers.remove(129);
    same(&rt, numbers.least_absent(0), Some(129));
    same(&rt, numbers.least_absent(130), Some(4100));
    for n in 4160..4200 {
        numbers.insert(n);
    }
    numbers.insert(129);
    same(&rt, numbers.least_absent(5), Some(4100));
    same(&rt, numbers.least_absent(4101), None);
    numbers.insert(4100);
    same(&rt, numbers.least_absent(0), None);
}

#[test]
fn no_number_is_there(rt: HostRuntime) {
    let numbers = made(&rt, NumberSet::boot(rt.alloc(), 0));
    same(&rt, numbers.least_absent(0), None);
}
