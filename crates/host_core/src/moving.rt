//! Pages moved out of the store, and into it.

ghost use Rattle.std.specs.Prelude.{◌≡◌, ◌+◌, ◌≤◌, ◌++◌, length, slice_set, vec_len, vec_capacity, IsSome, None, []};
ghost use Rattle.std.specs.Option.{option_map_or};
ghost use Rattle.host_core.specs.Collecting.{taken_pages};
ghost use Rattle.page_memory.specs.Pages.{page_at, zero_page};
ghost use Rattle.machine_model.specs.Memory.{without_pages, with_pages, zeroed_pages};
ghost use Rattle.host_core.specs.Commands.{CanTake, CanPut, CanZero};
ghost use Rattle.page_ledger.specs.Owners.{pages_from};
ghost use Rattle.host_core.specs.Touching.{TouchesBy};

use page_memory::{Page, PageNo, Store};
use std::alloc::Allocator;

/// Takes a page that is in, and makes it one of zeros.
fn take_zeroed<A: Allocator>(store: &mut Store<A>, number: PageNo) -> Page<A>
    requires { IsSome (page_at store.old.pages number) }
    ensures page { result ≡ (number, zero_page) }
    ensures out { store.new.pages ≡ slice_set store.old.pages number None }
    ensures touches { TouchesBy 1 store.old store.new }
{
    let mut page = store.take(number).unwrap();
    page.clear();
    page
}

/// Moves pages of zeros out, to the end of a list that has room for them.
pub(crate) fn move_out_zeroed<A: Allocator>(
    store: &mut Store<A>,
    numbers: &[PageNo],
    into: &mut Vec<Page<A>, A>,
)
    requires room { vec_len into.old + length numbers.now ≤ vec_capacity into.old }
    requires can { CanTake numbers.now store.old.pages }
    ensures pages { store.new.pages ≡ without_pages numbers.now store.old.pages }
    ensures touches { TouchesBy (length numbers.now) store.old store.new }
    ensures items { into.new.items ≡ into.old.items ++ zeroed_pages numbers.now }
    ensures capacity { vec_capacity into.new ≡ vec_capacity into.old }
{
    for number in numbers {
        into.push_reserved(take_zeroed(store, *number));
    }
}

/// Makes the pages of a run zero, which are in.
pub(crate) fn zero_run<A: Allocator>(store: &mut Store<A>, first: PageNo, count: u32)
    requires few { first + count ≤ 65536 }
    requires can { CanZero (pages_from first count) store.old.pages }
    ensures pages { store.new.pages ≡ with_pages (zeroed_pages (pages_from first count)) store.old.pages }
    ensures touches { TouchesBy count store.old store.new }
{
    for p in first.0..first.0 + count {
        let number = PageNo(p);
        let page = take_zeroed(store, number);
        store.put(page);
    }
}

/// Moves the pages of a list in, with their bytes.
pub(crate) fn move_in<A: Allocator>(store: &mut Store<A>, pages: &mut Vec<Page<A>, A>)
    requires { CanPut pages.old.items store.old.pages }
    ensures pages { store.new.pages ≡ with_pages pages.old.items store.old.pages }
    ensures touches { TouchesBy 0 store.old store.new }
{
    for page in pages.drain(..) {
        store.put(page);
    }
}

/// Takes a page that is in, with its bytes.
fn take_page<A: Allocator>(store: &mut Store<A>, number: PageNo) -> Page<A>
    requires { IsSome (page_at store.old.pages number) }
    ensures page { result ≡ (number, option_map_or (λ bytes. bytes) (page_at store.old.pages number) []) }
    ensures out { store.new.pages ≡ slice_set store.old.pages number None }
    ensures touches { TouchesBy 1 store.old store.new }
{
    store.take(number).unwrap()
}

/// Moves pages out with their bytes, to the end of a list that has room for them.
pub(crate) fn move_out<A: Allocator>(
    store: &mut Store<A>,
    numbers: &[PageNo],
    into: &mut Vec<Page<A>, A>,
)
    requires room { vec_len into.old + length numbers.now ≤ vec_capacity into.old }
    requires can { CanTake numbers.now store.old.pages }
    ensures pages { store.new.pages ≡ without_pages numbers.now store.old.pages }
    ensures touches { TouchesBy (length numbers.now) store.old store.new }
    ensures items { into.new.items ≡ into.old.items ++ taken_pages numbers.now store.old.pages }
    ensures capacity { vec_capacity into.new ≡ vec_capacity into.old }
    ensures len { vec_len into.new ≡ vec_len into.old + length numbers.now }
{
    for number in numbers {
        into.push_reserved(take_page(store, *number));
    }
}
