//! Names: what is open under each number from 0 to 63.

ghost use Rattle.std.specs.Prelude.{◌≡◌, ℕ, IfOk, true, replicate, None};
ghost use Rattle.std.specs.Option.{option_copied};
ghost use Rattle.usb_session_calls.specs.Names.{named, is_free, set_name, freed};

use std::alloc::Global;
use usb_desc::NoMemory;

/// How many names there are of a kind.
const NAMES: usize = 64;

/// Names under which nothing is open.
pub fn no_names<T>(alloc: Global) -> Result<Vec<Option<T>>, NoMemory>
    ensures empty { IfOk result (λ v. v.items ≡ replicate 64 None) }
{
    let Ok(mut names) = Vec::with_capacity(alloc, NAMES) else {
        return Err(NoMemory);
    };
    for i in 0..NAMES {
        names.push_reserved(None);
    }
    Ok(names)
}

/// Whether a name may be opened.
#[tactic(auto, unfolding(crate::specs::Names::is_free))]
pub fn is_free<T>(names: &[Option<T>], name: u8) -> bool
    ensures free { result ≡ is_free names.now name }
{
    match names.get(name as usize) {
        Some(place) => place.is_none(),
        None => false,
    }
}

/// What is open under a name.
#[tactic(auto, unfolding(crate::specs::Names::named))]
pub fn open_at<T>(names: &[Option<T>], name: u8) -> Option<&T>
    ensures value { option_copied result ≡ named names.now name }
{
    match names.get(name as usize) {
        Some(place) => place.as_ref(),
        None => None,
    }
}

/// What is open under a name is taken out.
pub fn take_at<T>(names: &mut Vec<Option<T>>, name: u8) -> Option<T>
    ensures taken { result ≡ named names.old.items name }
    ensures rest { names.new.items ≡ freed names.old.items name }
{
    if name as usize >= names.len() {
        return None;
    }
    let place = &mut names[name as usize];
    place.take()
}

/// Something is open under a name that was free.
pub fn put_at<T>(names: &mut Vec<Option<T>>, name: u8, x: T)
    requires free { is_free names.old.items name ≡ true }
    ensures after { names.new.items ≡ set_name names.old.items name x }
{
    let place = &mut names[name as usize];
    if let Some(_) = place.replace(x) {
        unreachable!()
    }
}

/// Drops names under which nothing is open.
pub fn drop_names<T>(names: Vec<Option<T>>)
    requires none { (n : ℕ) → named names.items n ≡ None }
{
    let mut names = names;
    'places: while let Some(place) = names.pop() {
        let None = place else { unreachable!() };
    }
    names.destroy_empty();
}
