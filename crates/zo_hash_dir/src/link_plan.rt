// How a name is linked into its bucket.
ghost use Rattle.std.specs.Prelude.{◌≡◌, ◌<◌, ◌≤◌, [], ◌∷◌, ◌++◌, length, IfOk, OnOk, if◌then◌else◌, ◌==◌};
ghost use Rattle.zo_plan.specs.declared.plan.Operand.TheVariants.{Known};
ghost use Rattle.zo_plan.specs.Operands.{IsNear};
ghost use Rattle.zo_hash_dir.specs.Links as spec;

use crate::letters::{letters_at, word_of_letters};
use std::alloc::{AllocError, Global};
use zo_layout::{ENTRIES_OF_PAGE, first_entry_page, first_free_entry};
use zo_plan::{Addr, Operand, Place, Plan, Put};

/// Words of a name of 255 bytes.
const NAME_WORDS: u32 = 32;

/// The entry page that a plan draws, before any other page.
const FRESH_PAGE: Operand = Operand::Drawn { page: 0, byte: 0 };

/// The plan that links a name of at most 255 bytes, which isn't in its directory, with its target: in the directory's
/// first free entry, or else in place 0 of a drawn entry page, whose other places become free entries.
pub fn plan_link(
    alloc: Global,
    dir: Addr,
    place: &Place,
    name: &[u8],
    target: Operand,
) -> Result<Plan, AllocError>
    ensures fresh { IfOk result (λ plan. plan.fresh ≡ if place.now.free == 0 then 1 else 0) }
    ensures prepares { length name.now ≤ 255 →
        IfOk result (λ plan. plan.prepares.items ≡ spec.link_puts dir.at place.now name.now target) }
    ensures at { IfOk result (λ plan. plan.at ≡ Known place.now.bucket) }
    ensures commit { IfOk result (λ plan. plan.commit ≡ spec.put (Known place.now.bucket) (spec.linked_entry place.now)) }
    ensures after { IfOk result (λ plan. plan.after.items ≡ []) }
    ensures freed { IfOk result (λ plan. plan.freed.items ≡ []) }
{
    if place.free == 0 {
        let prepares = in_fresh_page(alloc, dir, place, name, target)?;
        Ok(committed(alloc, place, fresh_entry(0), prepares))
    } else {
        let prepares = in_free_entry(alloc, dir, place, name, target)?;
        Ok(committed(alloc, place, Operand::Known(place.free), prepares))
    }
}

// The plan with these stores, by whose commit the bucket begins with the entry.
fn committed(alloc: Global, place: &Place, entry: Operand, prepares: Vec<Put>) -> Plan
    ensures fresh { result.fresh ≡ if place.now.free == 0 then 1 else 0 }
    ensures prepares { result.prepares.items ≡ prepares.items }
    ensures at { result.at ≡ Known place.now.bucket }
    ensures commit { result.commit ≡ spec.put (Known place.now.bucket) entry }
    ensures after { result.after.items ≡ [] }
    ensures freed { result.freed.items ≡ [] }
{
    let bucket = Operand::Known(place.bucket);
    Plan {
        fresh: place.entry_pages(),
        prepares,
        at: bucket,
        commit: put(bucket, entry),
        after: Vec::new(alloc),
        freed: Vec::new(alloc),
    }
}

fn put(at: Operand, word: Operand) -> Put
    ensures { result ≡ spec.put at word }
{
    Put { at, word }
}

// Place `i` of the drawn entry page.
fn fresh_entry(i: u32) -> Operand
    requires { i < 12 }
    ensures place { result ≡ spec.fresh_entry i }
    ensures near { IsNear result }
{
    FRESH_PAGE.word_behind(32 + 40 * i)
}

// The free entries move on before the entry's words are stored, so that no free entry leads into a bucket.
fn in_free_entry(
    alloc: Global,
    dir: Addr,
    place: &Place,
    name: &[u8],
    target: Operand,
) -> Result<Vec<Put>, AllocError>
    ensures { length name.now ≤ 255 →
        IfOk result (λ puts. puts.items ≡ spec.free_entry_puts dir.at place.now name.now target) }
{
    let first = Operand::Known(first_free_entry(dir.at));
    let mut prepares = vec![in alloc; put(first, Operand::Known(place.free_next))]?;
    prepare_entry(
        &mut prepares,
        Operand::Known(place.free),
        place.head,
        target,
        name,
    )?;
    Ok(prepares)
}

fn in_fresh_page(
    alloc: Global,
    dir: Addr,
    place: &Place,
    name: &[u8],
    target: Operand,
) -> Result<Vec<Put>, AllocError>
    ensures { length name.now ≤ 255 →
        IfOk result (λ puts. puts.items ≡ spec.fresh_page_puts dir.at place.now name.now target) }
{
    let mut prepares = fresh_page(alloc, place.first)?;
    prepare_entry(&mut prepares, fresh_entry(0), place.head, target, name)?;
    let pages = Operand::Known(first_entry_page(dir.at));
    prepares.push(put(pages, FRESH_PAGE))?;
    let free = Operand::Known(first_free_entry(dir.at));
    prepares.push(put(free, fresh_entry(1)))?;
    Ok(prepares)
}

// The drawn page as an entry page of free entries, behind which the entry pages go on with `first`.
fn fresh_page(alloc: Global, first: u64) -> Result<Vec<Put>, AllocError>
    ensures { IfOk result (λ puts. puts.items ≡ spec.page_puts first) }
{
    let mut prepares = vec![in alloc; put(FRESH_PAGE, Operand::Known(first))]?;
    for i in 2..ENTRIES_OF_PAGE as u32 {
        prepares.push(put(fresh_entry(i - 1), fresh_entry(i)))?;
    }
    Ok(prepares)
}

// The words of an entry: the next one, the target, and the name.
fn prepare_entry(
    prepares: &mut Vec<Put>,
    entry: Operand,
    next: u64,
    target: Operand,
    name: &[u8],
) -> Result<(), AllocError>
    requires { IsNear entry }
    ensures { length name.now ≤ 255 →
        OnOk result (prepares.new.items ≡ prepares.old.items ++ spec.entry_puts entry next target name.now) }
{
    prepares.push(put(entry, Operand::Known(next)))?;
    prepares.push(put(entry.word_behind(1), target))?;
    prepares.push(put(entry.word_behind(2), Operand::Known(name.len() as u64)))?;
    for i in 0..NAME_WORDS {
        let Some(letters) = letters_at(name, i) else {
            break;
        };
        let word = Operand::Known(word_of_letters(letters));
        prepares.push(put(entry.word_behind(3 + i), word))?;
    }
    Ok(())
}

#[cfg(test)]
mod tests {
    use super::*;
    use zo_plan::StoreRun;

    // The root directory of an image of 64 pages has no entry yet.
    fn place() -> Place {
        Place {
            bucket: 162912,
            before: 162912,
            entry: 0,
            head: 0,
            first: 0,
            free: 0,
            free_next: 0,
        }
    }

    #[test]
    fn the_first_name_draws_an_entry_page(rt: HostRuntime) -> Result<(), AllocError> {
        let target = Operand::Known(167936);
        let plan = plan_link(rt.alloc(), Addr { at: 159744 }, &place(), b"a", target)?;
        assert_eq!(rt; (plan.fresh, plan.prepares.len()), (1, 17));
        let shown = |i: usize| plan
            .prepares
            .get(i)
            .map(|put| (put.at.real(&[40]), put.word.real(&[40])));
        for (i, at, word) in [
            (0usize, 163840u64, 0u64),
            (1, 164416, 164736),
            (10, 167296, 167616),
            (11, 164096, 0),
            (12, 164104, 167936),
            (13, 164112, 1),
            (14, 164120, 97),
            (15, 159776, 163840),
            (16, 159784, 164416),
        ] {
            assert_eq!(rt; shown(i), Some((at, word)), "store {i}");
        }
        assert_eq!(rt;
            (plan.commit.at.real(&[40]), plan.commit.word.real(&[40])),
            (162912, 164096)
        );
        Ok(())
    }

    #[test]
    fn a_free_entry_is_taken(rt: HostRuntime) -> Result<(), AllocError> {
        let mut place = place();
        place.free = 164416;
        place.free_next = 164736;
        let target = Operand::Drawn { page: 0, byte: 0 };
        let plan = plan_link(
            rt.alloc(),
            Addr { at: 159744 },
            &place,
            b"nine_byte",
            target,
        )?;
        assert_eq!(rt; (plan.fresh, plan.prepares.len()), (0, 6));
        let shown = |i: usize| plan
            .prepares
            .get(i)
            .map(|put| (put.at.real(&[41]), put.word.real(&[41])));
        for (i, at, word) in [
            (0usize, 159784u64, 164736u64),
            (1, 164416, 0),
            (2, 164424, 167936),
            (3, 164432, 9),
            (4, 164440, 0x7479625f656e696e),
            (5, 164448, 101),
        ] {
            assert_eq!(rt; shown(i), Some((at, word)), "store {i}");
        }
        Ok(())
    }
}
