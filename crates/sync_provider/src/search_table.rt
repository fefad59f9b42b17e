//! The places of the searches that are open.

ghost use Rattle.std.specs.Prelude.{◌≡◌, ◌<◌, ◌≤◌, ◌+◌, [], length, map, is_some, option_copied, None, IfOk, IfSome, IfNone, OnOk};
ghost use Rattle.std.specs.BTreeMap.{insert_entry, is_at};
ghost use Rattle.std.specs.Map.{lookup, remove_entry, set_value};
ghost use Rattle.std.specs.Ordering.{nat_cmp};
ghost use Rattle.csn_cookie.specs.Cookie.{cookie_text};
ghost use Rattle.sync_provider.specs.Placing.{ComesBack, HasNoPlace, IsSearchNumber, IsTable, put_back, pushed_at, shown, staged_at, unstaged_at};
ghost use Rattle.sync_provider.specs.Staging.{HeldSearch, searches_of, each_pushed, each_staged, each_unstaged};

use crate::NoMemory;
use crate::open_search::OpenSearch;
use csn_cookie::Cookie;
use entry_tree::EntryChange;
use ldap_ber::discard;
use std::alloc::Global;
use std::marker::Model;
use std::mem;

/// The greatest number of a search, and so the most searches that are open at once.
pub(crate) const MOST_SEARCHES: u64 = 64;

/// The open searches by their numbers, from 1 on. Each number has its place from the start, so that
/// a search is put there, taken out and put back without memory.
#[derive(Drop)]
pub(crate) struct SearchTable {
    places: Vec<Option<OpenSearch>>,
    /// How many places, the first ones, may have had a search. Each place after them is free, so
    /// that what is done to each search looks at no more places than these.
    used: usize,
}

impl Model for SearchTable {
    ghost use Rattle.std.specs.Prelude.{List, ℕ};
    ghost use Rattle.std.specs.Coded.{codes};
    ghost use Rattle.entry_tree.specs.FilterCode.{tree_code};
    ghost use Rattle.sync_provider.specs.Placing.{placed_from, IsTable};
    ghost use Rattle.sync_provider.specs.Staging.{HeldSearch};

    ghost Value = { List (ℕ × HeldSearch) };

    ghost coded = { Prim.hlevel (codes, tree_code) };

    ghost view = { λ t. placed_from 1 t.places.items };

    ghost invariant = { λ t. IsTable t.used t.places.items };
}

impl SearchTable {
    /// A table of which each place is free.
    #[tactic(auto, using(crate::proofs::Tables::free_pushed))]
    pub(crate) fn new(alloc: Global) -> Result<SearchTable, NoMemory>
        ensures { IfOk result (λ table. table ≡ []) }
    {
        let mut places = Vec::with_capacity(alloc, MOST_SEARCHES as usize)?;
        for _free in 0..MOST_SEARCHES {
            places.push(None)?;
        }
        Ok(SearchTable { places, used: 0 })
    }

    /// How many searches it has room for.
    #[tactic(auto, using(crate::proofs::Tables::placed_length))]
    pub(crate) fn most_open(&self) -> usize
        ensures { length self.now ≤ result }
    {
        self.places.len()
    }

    /// The search with this number.
    #[tactic(auto, using(crate::proofs::Tables::none_at, crate::proofs::Tables::found_at))]
    pub(crate) fn get(&self, number: u64) -> Option<&OpenSearch>
        ensures value { option_copied result ≡ lookup (is_at (nat_cmp number)) self.now }
        ensures number { IfSome result (λ search. IsSearchNumber number) }
    {
        let places = &self.places;
        let Some(place) = place_of(number) else {
            return None;
        };
        match &places[place] {
            Some(search) => Some(search),
            None => None,
        }
    }

    /// The search with this number once more.
    #[tactic(auto, using(crate::proofs::Tables::none_at, crate::proofs::Tables::found_at, crate::proofs::Tables::all_come_back))]
    pub(crate) fn copy_at(&self, number: u64) -> Result<Option<OpenSearch>, NoMemory>
        ensures search { IfOk result (λ copy.
            shown copy ≡ shown (lookup (is_at (nat_cmp number)) self.now)) }
        ensures number { IfOk result (λ copy. IfSome copy (λ search. IsSearchNumber number)) }
        ensures back { ComesBack self.now number }
    {
        let places = &self.places;
        let Some(place) = place_of(number) else {
            return Ok(None);
        };
        copy_of_place(&places[place])
    }

    /// Whether a search has this number.
    pub(crate) fn contains(&self, number: u64) -> bool
        ensures { result ≡ is_some (lookup (is_at (nat_cmp number)) self.now) }
    {
        self.get(number).is_some()
    }

    /// Puts the search into the place of this number.
    #[tactic(auto, using(crate::proofs::Tables::filled))]
    pub(crate) fn put(&mut self, number: u64, search: OpenSearch)
        requires { IsSearchNumber number }
        ensures { self.new ≡ insert_entry nat_cmp self.old number search }
    {
        let used = used_with(self.used, number as usize);
        self.used = used;
        self.places[number as usize - 1] = Some(search);
    }

    /// Takes the search out of the place of this number.
    #[tactic(auto, using(crate::proofs::Tables::none_at, crate::proofs::Tables::found_at, crate::proofs::Tables::emptied, crate::proofs::Tables::nothing_there, crate::proofs::Tables::closed_none, crate::proofs::Tables::put_again_at, crate::proofs::Tables::gone_of, crate::proofs::Tables::table_emptied))]
    pub(crate) fn remove(&mut self, number: u64) -> Option<OpenSearch>
        ensures value { result ≡ lookup (is_at (nat_cmp number)) self.old }
        ensures entries { self.new ≡ remove_entry (is_at (nat_cmp number)) self.old }
        ensures unchanged { IfNone result (self.new ≡ self.old) }
        ensures gone { lookup (is_at (nat_cmp number)) self.new ≡ None }
        ensures number { IfSome result (λ search. IsSearchNumber number) }
        ensures again { IfSome result (λ was. (held : HeldSearch)
            → insert_entry nat_cmp (remove_entry (is_at (nat_cmp number)) self.old) number held
            ≡ set_value (is_at (nat_cmp number)) self.old held) }
    {
        let places = &mut self.places;
        let Some(place) = place_of(number) else {
            return None;
        };
        mem::replace(&mut places[place], None)
    }

    /// Puts back what had this number, or leaves its place free.
    pub(crate) fn put_back(&mut self, number: u64, search: Option<OpenSearch>)
        requires { IfSome search (λ held. IsSearchNumber number) }
        ensures { self.new ≡ put_back self.old number search }
    {
        let Some(search) = search else {
            discard(self.remove(number));
            return;
        };
        self.put(number, search);
    }

    /// Drops what is staged for each search.
    pub(crate) fn unstage_each(&mut self)
        ensures searches { searches_of self.new ≡ searches_of self.old }
        ensures unstaged { self.new ≡ each_unstaged self.old }
    {
        unstage_places(&mut self.places, self.used);
    }

    /// Makes the messages of a write with these touches and this cookie for each search, after
    /// those that are staged.
    #[tactic(auto, using(crate::proofs::Tables::same_seen))]
    pub(crate) fn stage_each(
        &mut self,
        touched: &[EntryChange],
        cookie: Cookie,
    ) -> Result<(), NoMemory>
        requires rid { cookie.rid < 1000 }
        requires sid { cookie.sid < 4096 }
        ensures searches { searches_of self.new ≡ searches_of self.old }
        ensures staged { OnOk result
            (self.new ≡ each_staged touched.now (cookie_text cookie) self.old) }
    {
        stage_places(&mut self.places, self.used, touched, &cookie)
    }

    /// Puts what was made into the searches, each of which may keep n messages or identities.
    #[tactic(auto, using(crate::proofs::Tables::each_seen_pushed))]
    pub(crate) fn push_each(&mut self, limit: u64)
        ensures { searches_of self.new ≡ each_pushed limit self.old }
    {
        push_places(&mut self.places, self.used, limit);
    }
}

/// How many places are in use with the one of this number.
fn used_with(used: usize, number: usize) -> usize
    ensures before { used ≤ result }
    ensures own { number ≤ result }
    ensures few { used ≤ 64 → number ≤ 64 → result ≤ 64 }
{
    if used < number { number } else { used }
}

/// The place of this number, where it has one.
fn place_of(number: u64) -> Option<usize>
    ensures some { IfSome result (λ place. (number ≡ place + 1) × (place < 64)) }
    ensures none { IfNone result (HasNoPlace number) }
{
    if number == 0 {
        return None;
    }
    if number > MOST_SEARCHES {
        return None;
    }
    Some(number as usize - 1)
}

/// Drops what is staged for the search of each place.
#[tactic(auto, using(crate::proofs::Tables::none_made))]
fn unstage_places(places: &mut Vec<Option<OpenSearch>>, used: usize)
    requires { IsTable used places.old.items }
    ensures { places.new.items ≡ map unstaged_at places.old.items }
{
    for place in 0..used {
        unstage_at(&mut places[place]);
    }
}

/// Makes the messages of a write for the search of each place.
#[tactic(auto, using(crate::proofs::Tables::set_shown, crate::proofs::Tables::none_made))]
fn stage_places(
    places: &mut Vec<Option<OpenSearch>>,
    used: usize,
    touched: &[EntryChange],
    cookie: &Cookie,
) -> Result<(), NoMemory>
    requires table { IsTable used places.old.items }
    requires rid { cookie.now.rid < 1000 }
    requires sid { cookie.now.sid < 4096 }
    ensures searches { map shown places.new.items ≡ map shown places.old.items }
    ensures staged { OnOk result (places.new.items
        ≡ map (staged_at touched.now (cookie_text cookie.now)) places.old.items) }
{
    for place in 0..used {
        stage_at(&mut places[place], touched, cookie)?;
    }
    Ok(())
}

/// Puts what was made into the search of each place.
#[tactic(auto, using(crate::proofs::Tables::none_made))]
fn push_places(places: &mut Vec<Option<OpenSearch>>, used: usize, limit: u64)
    requires { IsTable used places.old.items }
    ensures { map shown places.new.items ≡ map (pushed_at limit) places.old.items }
{
    for place in 0..used {
        push_at(&mut places[place], limit);
    }
}

/// The search of a place once more.
fn copy_of_place(place: &Option<OpenSearch>) -> Result<Option<OpenSearch>, NoMemory>
    ensures { IfOk result (λ copy. shown copy ≡ shown place.now) }
{
    match place {
        Some(search) => Ok(Some(search.copy()?)),
        None => Ok(None),
    }
}

/// Drops what is staged for the search of a place.
fn unstage_at(place: &mut Option<OpenSearch>)
    ensures { place.new ≡ unstaged_at place.old }
{
    let Some(search) = place else {
        return;
    };
    search.unstage();
}

/// Makes the messages of a write for the search of a place.
fn stage_at(
    place: &mut Option<OpenSearch>,
    touched: &[EntryChange],
    cookie: &Cookie,
) -> Result<(), NoMemory>
    requires rid { cookie.now.rid < 1000 }
    requires sid { cookie.now.sid < 4096 }
    ensures search { shown place.new ≡ shown place.old }
    ensures staged { OnOk result
        (place.new ≡ staged_at touched.now (cookie_text cookie.now) place.old) }
{
    let Some(search) = place else {
        return Ok(());
    };
    search.stage(touched, *cookie)
}

/// Puts what was made into the search of a place.
fn push_at(place: &mut Option<OpenSearch>, limit: u64)
    ensures { shown place.new ≡ pushed_at limit place.old }
{
    let Some(search) = place else {
        return;
    };
    search.push_staged(limit);
}
