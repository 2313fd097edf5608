ghost use Rattle.std.specs.Prelude.{◌≡◌, ◌≤◌, ◌∷◌, [], length, All, IsSome, IfOk};
ghost use Rattle.kern_model.specs.Rights as rights;

use super::*;
use std::alloc::{AllocError, Global};
use std::test::Fail;
use tr_types::{FaultKind, Right};

// 64 pages; threads 0 and 1 in process 0, and thread 2 in process 1. Page 40 stands under coffer 1.
fn with_three_threads(alloc: Global) -> Result<Tables, AllocError>
    ensures threads { IfOk result (λ t. t.threads ≡ (0, 0) ∷ (1, 0) ∷ (2, 1) ∷ []) }
    ensures pages { IfOk result (λ t. length t.owners ≡ 64) }
{
    let mut tables = Tables::new(alloc, 64)?;
    tables.start(0, 0)?;
    tables.start(1, 0)?;
    tables.start(2, 1)?;
    tables.add_pages(1, &[40])?;
    Ok(tables)
}

// Maps a coffer and puts no page under it.
fn map(
    tables: &mut Tables,
    thread: u16,
    id: u16,
    right: Right,
    exclusive: bool,
) -> Result<u8, MapFault>
    requires started { IsSome (rights.process_of tables.old.threads thread) }
    requires least_id { 1 ≤ id }
    requires greatest_id { id ≤ 256 }
    ensures threads_stay { tables.new.threads ≡ tables.old.threads }
    ensures pages_stay { length tables.new.owners ≡ length tables.old.owners }
{
    tables.map(thread, id, right, exclusive, &[])
}

#[test]
fn values_of_the_register(rt: HostRuntime) {
    assert_eq!(rt; Pkru::closed().0, 0x5555_5554);
    assert_eq!(rt; Pkru::only(1, true).0, 0x5555_5550);
    assert_eq!(rt; Pkru::only(1, false).0, 0x5555_5558);
    assert_eq!(rt; Pkru::only(15, true).0, 0x1555_5554);
}

#[test]
fn a_process_has_fifteen_keys(rt: HostRuntime) -> Result<(), Fail> {
    let mut tables = with_three_threads(rt.alloc())?;
    for id in 1u16..16 {
        let key = map(&mut tables, 0, id, Right::READ, false);
        assert_eq!(rt; key, Ok(id as u8));
    }
    let sixteenth = map(&mut tables, 0, 16, Right::READ, false);
    assert_eq!(rt; sixteenth, Err(MapFault::NoKey));
    let other_process = map(&mut tables, 2, 16, Right::READ, false);
    assert_eq!(rt; other_process, Ok(1));
    Ok(())
}

#[test]
fn a_page_of_a_coffer_that_nobody_holds_is_not_mapped(rt: HostRuntime) -> Result<(), Fail> {
    let mut tables = with_three_threads(rt.alloc())?;
    let open = Pkru::only(1, true);
    assert_eq!(rt; tables.may_load(0, open, 40), Some(FaultKind::NotMapped));
    map(&mut tables, 0, 1, Right::WRITE, false)?;
    let holders = tables.holders(rt.alloc(), 1)?;
    assert_eq!(rt; holders.len(), 1);
    assert_eq!(rt; tables.may_store(0, open, 40), None);
    assert_eq!(rt; tables.unmap(0, 1), true);
    assert_eq!(rt; tables.may_load(0, open, 40), Some(FaultKind::NotMapped));
    assert_eq!(rt; tables.owner_of(40), 1);
    Ok(())
}

#[test]
fn a_page_that_was_taken_is_mapped_for_nobody(rt: HostRuntime) -> Result<(), Fail> {
    let mut tables = with_three_threads(rt.alloc())?;
    map(&mut tables, 0, 1, Right::READ, false)?;
    map(&mut tables, 2, 1, Right::READ, false)?;
    let open = Pkru::only(1, false);
    assert_eq!(rt; tables.may_load(2, open, 40), None);
    tables.take_pages(&[40]);
    assert_eq!(rt; tables.may_load(0, open, 40), Some(FaultKind::NotMapped));
    assert_eq!(rt; tables.may_load(2, open, 40), Some(FaultKind::NotMapped));
    assert_eq!(rt; tables.owner_of(40), 0);
    Ok(())
}

#[test]
fn the_later_map_of_a_thread_is_its_row(rt: HostRuntime) -> Result<(), Fail> {
    let mut tables = with_three_threads(rt.alloc())?;
    map(&mut tables, 0, 1, Right::OWN, true)?;
    assert_eq!(rt; tables.holds_as_owner(0, 1), true);
    assert_eq!(rt; tables.holds_for_writing(0, 1), false);
    map(&mut tables, 0, 1, Right::WRITE, false)?;
    assert_eq!(rt; tables.row(0, 1).map(|row| row.right), Some(Right::WRITE));
    assert_eq!(rt; tables.holds_as_owner(0, 1), false);
    assert_eq!(rt; tables.row(1, 1), None);
    Ok(())
}

#[test]
fn drops_end_the_maps_of_a_coffer_or_a_process(rt: HostRuntime) -> Result<(), Fail> {
    let mut tables = with_three_threads(rt.alloc())?;
    map(&mut tables, 0, 1, Right::READ, false)?;
    map(&mut tables, 2, 1, Right::READ, false)?;
    let open = Pkru::only(1, false);
    tables.drop_process(0);
    assert_eq!(rt; tables.may_load(1, open, 40), Some(FaultKind::NotMapped));
    assert_eq!(rt; tables.may_load(2, open, 40), None);
    tables.drop_coffer(1);
    assert_eq!(rt; tables.may_load(2, open, 40), Some(FaultKind::NotMapped));
    assert_eq!(rt; tables.owner_of(40), 1);
    Ok(())
}

#[test]
fn rights_are_the_process_and_keys_the_thread(rt: HostRuntime) -> Result<(), Fail> {
    let mut tables = with_three_threads(rt.alloc())?;
    map(&mut tables, 0, 1, Right::READ, false)?;
    let open = Pkru::only(1, true);
    assert_eq!(rt; tables.may_load(1, open, 40), None);
    assert_eq!(rt;
        tables.may_load(1, Pkru::closed(), 40),
        Some(FaultKind::KeyDenied)
    );
    assert_eq!(rt; tables.may_load(2, open, 40), Some(FaultKind::NotMapped));
    assert_eq!(rt; tables.may_store(0, open, 40), Some(FaultKind::NotWritable));
    assert_eq!(rt; tables.may_load(0, open, 64), Some(FaultKind::NotMapped));
    Ok(())
}

#[test]
fn one_writing_thread_lets_its_process_store(rt: HostRuntime) -> Result<(), Fail> {
    let mut tables = with_three_threads(rt.alloc())?;
    assert_eq!(rt; map(&mut tables, 1, 1, Right::WRITE, false), Ok(1));
    map(&mut tables, 0, 1, Right::READ, false)?;
    assert_eq!(rt; tables.may_store(0, Pkru::only(1, true), 40), None);
    assert_eq!(rt;
        tables.may_store(0, Pkru::only(1, false), 40),
        Some(FaultKind::KeyDenied)
    );
    Ok(())
}

#[test]
fn the_least_thread_stands_against_an_exclusive_map(rt: HostRuntime) -> Result<(), Fail> {
    let mut tables = with_three_threads(rt.alloc())?;
    assert_eq!(rt; map(&mut tables, 2, 1, Right::READ, false), Ok(1));
    assert_eq!(rt; map(&mut tables, 1, 1, Right::READ, false), Ok(1));
    assert_eq!(rt;
        map(&mut tables, 0, 1, Right::READ, true),
        Err(MapFault::InUse(1))
    );
    Ok(())
}
