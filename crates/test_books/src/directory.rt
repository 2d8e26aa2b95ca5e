//! The directory: places, and what a full one does.
use base_list::{AddError, AddFault};
use sess_dir::{Directory, MAX_NAMES};
use std::alloc::Global;

/// Whether each name is found or added at its place.
fn finds_or_adds(directory: &mut Directory, rows: &[(&str, usize)]) -> bool {
    let mut all = true;
    for (name, place) in rows {
        all = all && directory.find_or_add(name.as_bytes()) == Ok(*place);
    }
    all
}

/// Whether as many numbers, as names of four octets, get the places from 0 on.
fn adds_numbers(directory: &mut Directory, count: u32) -> bool {
    let mut all = true;
    for number in 0..count {
        all = all && directory.find_or_add(&number.to_be_bytes()) == Ok(number as usize);
    }
    all
}

/// Whether that name stands at a place.
fn is_name(directory: &Directory, place: usize, name: &str) -> bool {
    directory.name(place) == Some(name.as_bytes())
}

/// Whether two names get the places 0 and 1, and no other place has one.
fn has_two(directory: &mut Directory) -> bool {
    let was_empty = directory.is_empty();
    let rows = [("c1;1", 0), ("c1;2", 1), ("c1;1", 0)];
    was_empty
        && finds_or_adds(directory, &rows)
        && directory.len() == 2
        && is_name(directory, 1, "c1;2")
        && directory.name(2).is_none()
}

/// Whether the second of two names is dropped.
fn drops_the_second(directory: &mut Directory) -> bool {
    if directory.is_empty() {
        return false;
    }
    directory.drop_last();
    directory.find("c1;2".as_bytes()).is_none() && directory.find("c1;1".as_bytes()) == Some(0)
}

/// Whether a full directory refuses the name 4,096, and knows the name 77.
fn refuses_one_more(directory: &mut Directory) -> bool {
    let was_full = directory.len() == MAX_NAMES;
    let one_more = directory.find_or_add(&4096u32.to_be_bytes());
    let known = directory.find_or_add(&77u32.to_be_bytes());
    was_full
        && one_more == Err(AddError::Fault(AddFault::Full))
        && known == Ok(77)
        && directory.len() == MAX_NAMES
}

fn keeps_places(alloc: Global) -> bool {
    let mut directory = Directory::new(alloc);
    has_two(&mut directory) && drops_the_second(&mut directory)
}

fn fills(alloc: Global) -> bool {
    let mut directory = Directory::new(alloc);
    adds_numbers(&mut directory, 4096) && refuses_one_more(&mut directory)
}

#[test]
fn a_name_keeps_the_place_at_which_it_was_added(rt: HostRuntime) {
    assert!(rt; keeps_places(rt.alloc()));
}

#[test]
fn a_full_directory_takes_no_new_name_and_finds_the_others(rt: HostRuntime) {
    assert!(rt; fills(rt.alloc()));
}
