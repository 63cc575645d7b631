//! Laws of what calls change in a registry. Each is a theorem about the definitions that the contracts of the calls
//! cite, and its function does nothing. `Change` lists the changes, and a run is any list of them that calls can make
//! in turn.

ghost use Rattle.std.specs.Prelude.{◌≡◌, ℕ, ◌<◌, List, [], Some};
ghost use Rattle.cal_storage.specs.Changes.{Change, after, after_all, IsAllowed, IsRun, Spares};
ghost use Rattle.cal_storage.specs.Contents.{Contents, Handle, Has, entry_of, nothing_registered, after_creation, after_opening, after_removal, after_close, after_finish, after_withdrawal, with_value, with_version};
ghost use Rattle.cal_storage.specs.ContentsLaws.{IsLater, MakesEntry, ChangesEntry, ChangesNamedEntry, TakesName, LetsGo, Withdraws, one_holder_more};
ghost use Rattle.cal_storage.specs.OpenHandles.{ServesHandles, IsRunOfHandles, open_on, open_after_all};
ghost use Rattle.cal_storage.specs.Soundness.{IsSound};
ghost use Rattle.cal_storage.specs.declared.entry.Entry.{Entry};

/// A creation makes an entry with one holder, under an id that was never used, for which the path stands from then on.
/// Every other path and id is left as it was.
pub fn a_creation_makes_an_entry<T>()
    ensures makes { (old : Contents T) (path : List ℕ) (value : T) (version : ℕ) →
        MakesEntry old (after_creation old path value version) path value version }
{}

/// An opening gives an entry one holder more, and changes nothing else.
pub fn an_opening_adds_a_holder<T>()
    ensures adds_a_holder { (old : Contents T) (id : ℕ) → ChangesEntry old (after_opening old id) id one_holder_more }
{}

/// To finish an entry, to write its value and to set its version each changes that alone, in this entry alone: the
/// names stay, and so do the holders.
pub fn an_entry_changes_alone<T>()
    ensures finish { (old : Contents T) (id : ℕ) (value : T) (version : ℕ) →
        ChangesEntry old (after_finish old id value version) id
        (λ entry. record entry { value = value; version = version }) }
    ensures value { (old : Contents T) (id : ℕ) (value : T) →
        ChangesEntry old (with_value old id value) id (λ entry. record entry { value = value }) }
    ensures version { (old : Contents T) (path : List ℕ) (version : ℕ) →
        ChangesNamedEntry old (with_version old path version) path (λ entry. record entry { version = version }) }
{}

/// A removal takes the name. The entry for which it stood stays, unchanged, where somebody holds it, and has ended
/// else.
pub fn a_removal_takes_the_name<T>()
    ensures takes_the_name { (old : Contents T) (path : List ℕ) → IsSound old →
        TakesName old (after_removal old path) path }
{}

/// A close takes one holder, and the name only where the handle is the owner and the name still stands for its entry.
/// The entry stays where a holder or its name is left, and has ended else. Every other path and id is left as it was.
pub fn a_close_lets_go<T>()
    ensures lets_go { (old : Contents T) (handle : Handle) (entry : Entry T) → IsSound old →
        entry_of old handle.id ≡ Some entry → LetsGo old (after_close old handle) handle entry }
{}

/// Where the value of an entry is refused at the end of its making, the entry has ended, whoever holds it, and its name
/// is gone where it still stood for the entry.
pub fn a_withdrawal_ends_the_entry<T>()
    ensures ends_the_entry { (old : Contents T) (handle : Handle) → IsSound old →
        Withdraws old (after_withdrawal old handle) handle }
{}

/// A new registry is sound, and stays so over every run: each name stands for an entry that was made under it, and each
/// entry that is there has a holder or its name.
pub fn a_registry_stays_sound<T>()
    ensures new { IsSound {T = T} nothing_registered }
    ensures kept { (old : Contents T) (changes : List (Change T)) →
        IsSound old → IsRun old changes → IsSound (after_all old changes) }
{}

/// An id is never used again: over any changes an entry that has ended stays so, and an id that has an entry had one
/// before, made under the same path.
pub fn an_id_is_never_used_again<T>()
    ensures later { (old : Contents T) (changes : List (Change T)) → IsLater old (after_all old changes) }
{}

/// A registry keeps the entry of a handle over every change that spares it: its name may be removed while somebody
/// holds it, another handle on it may close while more than one holds it, and it isn't withdrawn.
pub fn a_held_entry_stays<T>()
    ensures stays { (old : Contents T) (change : Change T) (handle : Handle) → IsSound old → IsAllowed old change →
        Has old handle → Spares old change handle.id → Has (after old change) handle }
{}

/// A registry has the entry of each open handle, whatever calls come between: over any run that begins with a new
/// registry each entry counts a holder for each handle on it at least, up to the greatest number, and what a handle has
/// it still has while a handle on the same entry is open. Only a withdrawal takes the entry from all handles on it.
pub fn an_open_handle_has_its_entry<T>()
    ensures new { ServesHandles {T = T} nothing_registered [] }
    ensures kept { (old : Contents T) (open_handles : List ℕ) (changes : List (Change T)) →
        IsSound old → ServesHandles old open_handles → IsRunOfHandles old open_handles changes →
        ServesHandles (after_all old changes) (open_after_all old open_handles changes) }
    ensures has { (old : Contents T) (open_handles : List ℕ) (changes : List (Change T)) (handle : Handle) →
        IsSound old → ServesHandles old open_handles → IsRunOfHandles old open_handles changes →
        Has old handle → 0 < open_on (open_after_all old open_handles changes) handle.id →
        Has (after_all old changes) handle }
{}
