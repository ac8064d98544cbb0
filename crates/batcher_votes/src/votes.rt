//! The votes of a round: the first of each kind per signer, in full or as facts.

ghost use Rattle.std.specs.Prelude.{ℕ, ◌≡◌, ◌≤◌, ◌<◌, ◌+◌, ◌^◌, true, false, ◌&&◌, ◌||◌, nat_lt};
ghost use Rattle.std.specs.Prelude.{cond, if◌then◌else◌, is_ok, is_some, IsOk, IfOk, IfErr, OnOk};
ghost use Rattle.std.specs.Prelude.{OnErr, Some, None, length, filter, map, slice_set};
ghost use Rattle.std.specs.Prelude.{slice_index_or};
ghost use Rattle.std.specs.Option.{option_copied, option_map};
ghost use Rattle.std.specs.Iterator.{YieldsFirst, item_count};
ghost use Rattle.batcher_types.specs.declared.messages.Kind.{Kind};
ghost use Rattle.batcher_types.specs.declared.messages.Kind.TheVariants.{Notarization};
ghost use Rattle.batcher_types.specs.declared.messages.Kind.TheVariants.{Nullification};
ghost use Rattle.batcher_types.specs.declared.messages.Kind.TheVariants.{Finalization};
ghost use Rattle.batcher_types.specs.Ascending.{IsAscending};
ghost use Rattle.batcher_types.specs.Lists.{count, is_some_and};
ghost use Rattle.batcher_types.specs.Votes.{kind_of, attestation_of, is_eligible};
ghost use Rattle.batcher_votes.specs.RoundState.{of_kind};
ghost use Rattle.batcher_votes.specs.Entries.{Entry as TheEntry, entry_key, part, with_part};
ghost use Rattle.batcher_votes.specs.Entries.{seen_in, entries_with, entry_released, votes_in};
ghost use Rattle.batcher_votes.specs.Entries.{room_in, vote_at};
ghost use Rattle.batcher_types.specs.Items.{item_of, place_of};
ghost use Rattle.batcher_votes.specs.Texts.{mode_text, outcome_text};

mod entry;
mod kept;

use batcher_types::messages::{AttributableMap, Digest, Kind, Notarize, Place, Proposal, Vote};
use batcher_types::positions::Participant;
use entry::{Entry, Seen, is_selected};
use kept::KeptLists;
use std::alloc::{AllocError, Global};
use std::fmt;
use std::marker::Model;

/// How a round keeps its votes.
#[derive(Clone, Copy, Debug, PartialEq, Eq)]
pub enum Mode {
    /// In full, as evidence, to its end.
    Retaining,
    /// In full until their kind is certified, and as facts of each signer from then on.
    Releasing,
    /// As facts from the start, since the view was skipped and makes no certificate.
    Skipped,
}

impl fmt::Display for Mode {
    ghost output = { λ mode. Some (mode_text mode) };

    fn fmt<W: fmt::Write>(&self, f: &mut fmt::Formatter<W>) -> fmt::Result {
        f.write_str(match self {
            Mode::Retaining => "retaining",
            Mode::Releasing => "releasing",
            Mode::Skipped => "skipped",
        })
    }
}

impl Mode {
    ghost use Rattle.batcher_votes.specs.TrackerSteps.{is_released_in, is_skipped};

    // Whether votes of a certified kind are released.
    fn is_releasing(self) -> bool
        ensures { result ≡ is_released_in self true }
    {
        match self {
            Mode::Retaining => false,
            Mode::Releasing | Mode::Skipped => true,
        }
    }

    // Whether no votes are kept, of any kind.
    fn is_skipped(self) -> bool
        ensures { result ≡ is_skipped self }
    {
        match self {
            Mode::Retaining | Mode::Releasing => false,
            Mode::Skipped => true,
        }
    }
}

/// What came of recording a vote. `retained` says whether votes of its kind are kept in full.
#[derive(Clone, Copy, Debug, PartialEq, Eq)]
pub enum Outcome {
    /// It is the first of its kind and signer.
    Added { retained: bool },
    /// There was one before. Of one that is kept in full nothing is compared here: a round does
    /// that. Of a compacted one the facts don't show that the two differ.
    Duplicate { retained: bool },
    /// There was one before, and only one of the two is for the selected proposal.
    Conflicting,
}

impl fmt::Display for Outcome {
    ghost output = { λ outcome. Some (outcome_text outcome) };

    fn fmt<W: fmt::Write>(&self, f: &mut fmt::Formatter<W>) -> fmt::Result {
        f.write_str(match self {
            Outcome::Added { retained: true } => "added retained",
            Outcome::Added { retained: false } => "added compact",
            Outcome::Duplicate { retained: true } => "duplicate retained",
            Outcome::Duplicate { retained: false } => "duplicate compact",
            Outcome::Conflicting => "conflicting",
        })
    }
}

/// A recorded vote that is kept, or one of which only facts are.
#[derive(Clone, Copy, Debug, PartialEq, Eq)]
pub enum ObservedVote<T> {
    Retained(T),
    Compacted,
}

// A mark for each kind.
#[derive(Clone, Copy)]
struct Marks {
    notarize: bool,
    nullify: bool,
    finalize: bool,
}

impl Marks {
    ghost use Rattle.batcher_votes.specs.RoundState.{of_kind};
    ghost use Rattle.batcher_votes.specs.Entries.{marks_of, with_mark};

    fn with(self, kind: Kind) -> Self
        ensures { marks_of result ≡ with_mark kind (marks_of self) }
    {
        let mut marks = self;
        match kind {
            Kind::Notarization => marks.notarize = true,
            Kind::Nullification => marks.nullify = true,
            Kind::Finalization => marks.finalize = true,
        }
        marks
    }

    fn of(self, kind: Kind) -> bool
        ensures { result ≡ of_kind (marks_of self) kind }
    {
        match kind {
            Kind::Notarization => self.notarize,
            Kind::Nullification => self.nullify,
            Kind::Finalization => self.finalize,
        }
    }
}

// What is known of a signer's votes of the kind, where `place` is that of its entry.
fn seen_at(entries: &AttributableMap<Entry>, place: Place, kind: Kind) -> Seen
    ensures seen { (i : ℕ) → place ≡ place_of (map entry_key entries.now.items) i
        → result ≡ seen_in kind (item_of entry_key entries.now.items i) }
    ensures ascending { IsAscending entry_key entries.now.items }
    ensures few { length entries.now.items ≤ entries.now.participants }
{
    match entries.get_at(place) {
        Some(entry) => entry.seen(kind),
        None => Seen::Nothing,
    }
}

// Has an entry say this of the kind, where it is.
fn set_at(entries: &mut AttributableMap<Entry>, index: usize, kind: Kind, seen: Seen)
    requires { index < length entries.old.items }
    ensures items { (default : TheEntry) → entries.new.items ≡ slice_set entries.old.items index
        (with_part kind seen (slice_index_or entries.old.items index default)) }
    ensures ascending { IsAscending entry_key entries.old.items }
    ensures participants { entries.new.participants ≡ entries.old.participants }
    ensures room { entries.new.room ≡ entries.old.room }
{
    entries.items[index].set(kind, seen);
}

// Has the signer's entry say this of the kind, where `place` is its place. It takes no memory.
fn put_at(
    entries: &mut AttributableMap<Entry>,
    place: Place,
    signer: Participant,
    kind: Kind,
    seen: Seen,
)
    requires place { place ≡ place_of (map entry_key entries.old.items) signer.0 }
    requires range { signer.0 < entries.old.participants }
    requires room { IfErr place (λ _. 1 ≤ entries.old.room) }
    ensures items { entries.new.items ≡ entries_with signer kind seen entries.old.items }
    ensures participants { entries.new.participants ≡ entries.old.participants }
{
    match place {
        Ok(index) => set_at(entries, index, kind, seen),
        Err(index) => insert_entry(entries, index, signer, kind, seen),
    }
}

// Inserts an entry for a signer that has none, at its place, which says this of the kind. It isn't
// inlined, so that only who inserts an entry pays for it.
#[inline(never)]
fn insert_entry(
    entries: &mut AttributableMap<Entry>,
    index: usize,
    signer: Participant,
    kind: Kind,
    seen: Seen,
)
    requires place { place_of (map entry_key entries.old.items) signer.0 ≡ Err index }
    requires range { signer.0 < entries.old.participants }
    requires room { 1 ≤ entries.old.room }
    ensures items { entries.new.items ≡ entries_with signer kind seen entries.old.items }
    ensures participants { entries.new.participants ≡ entries.old.participants }
{
    let mut entry = Entry::unseen(signer);
    entry.set(kind, seen);
    entries.insert_at(index, entry);
}

// Makes room for the entry of a signer that has none at its place, and for one vote of the kind
// where it isn't compacted. Nothing else changes.
fn make_room_at<G: Copy, D: Digest>(
    entries: &mut AttributableMap<Entry>,
    kept: &mut KeptLists<G, D>,
    place: Place,
    kind: Kind,
    is_compacted: bool,
) -> Result<(), AllocError>
    ensures entry { OnOk result (IfErr place (λ _. 1 ≤ entries.new.room)) }
    ensures vote { OnOk result (is_compacted ≡ false → 1 ≤ of_kind (room_in kept.new) kind) }
    ensures no_memory { IfErr place (λ _. 1 ≤ entries.old.room)
        → (is_compacted ≡ false → 1 ≤ of_kind (room_in kept.old) kind) → IsOk result }
    ensures items { entries.new.items ≡ entries.old.items }
    ensures participants { entries.new.participants ≡ entries.old.participants }
    ensures votes { votes_in kept.new ≡ votes_in kept.old }
{
    if place.is_err() {
        entries.make_room()?;
    }
    if is_compacted {
        return Ok(());
    }
    kept.make_room(kind, entries.participants())
}

// Puts facts in the place of each kept vote of the kind.
fn release_each<G: Copy, D: Digest>(
    entries: &mut AttributableMap<Entry>,
    kept: &KeptLists<G, D>,
    kind: Kind,
    selected: Option<&Proposal<D>>,
)
    ensures items { entries.new.items ≡ map (entry_released D.eq (option_copied selected.entry) kind
        (of_kind (votes_in kept.now) kind)) entries.old.items }
    ensures participants { entries.new.participants ≡ entries.old.participants }
{
    for index in 0..entries.len() {
        let seen = entries.item_at(index).seen(kind);
        set_at(entries, index, kind, kept.released(kind, seen, selected));
    }
}

/// The votes of a view: of each signer the first of each kind.
///
/// The votes of a kind are kept in full, as evidence and for a certificate, until the kind is
/// compacted. From then on facts of each signer take their place: they distinguish a repeat from a
/// conflict, and whether a signer has the selected proposal's block. They are in the signers'
/// entries, where the indices of the votes were, so a kind is compacted without any memory, and
/// that of its votes goes back.
#[derive(Drop)]
pub struct VoteTracker<G: Copy, D: Digest> {
    mode: Mode,
    // Of which kinds votes aren't kept. Their entries have no index, and those of others no facts.
    compacted: Marks,
    entries: AttributableMap<Entry>,
    kept: KeptLists<G, D>,
}

impl<G: Copy, D: Digest> Model for VoteTracker<G, D> {
    ghost use Rattle.batcher_votes.specs.RoundState.{TrackerView};

    ghost Value = { TrackerView G D };

    ghost use Rattle.std.specs.Prelude.{map};
    ghost use Rattle.batcher_votes.specs.Entries.{tracked_by, marks_of, entry_key, votes_in};
    ghost use Rattle.batcher_votes.specs.Entries.{room_in, IsTracked};

    ghost view = { λ t. record {
      participants = t.entries.participants;
      mode = t.mode;
      holds = tracked_by (marks_of t.compacted) (votes_in t.kept) t.entries.items;
      signers = map entry_key t.entries.items;
      room = t.entries.room;
      vote_room = room_in t.kept;
    } };

    ghost invariant = { λ t. IsTracked t.entries.participants (marks_of t.compacted)
        (votes_in t.kept) t.entries.items };
}

impl<G: Copy, D: Digest> VoteTracker<G, D> {
    ghost use Rattle.batcher_types.specs.declared.messages.Vote.TheVariants.{Notarize as NotarizeVote};
    ghost use Rattle.batcher_votes.specs.TrackerSteps.{nothing_tracked, outcome_of, outcome_by};
    ghost use Rattle.batcher_votes.specs.TrackerSteps.{RecordsKind, ReleasesKind, SameTrackerState};
    ghost use Rattle.batcher_votes.specs.TrackerSteps.{is_known, is_seen, kept_vote, observed};
    ghost use Rattle.batcher_votes.specs.TrackerSteps.{shown, is_seen_for, is_released_in};
    ghost use Rattle.batcher_votes.specs.TrackerSteps.{KeepsEach, HasRoomToRecord};
    ghost use Rattle.batcher_types.specs.Votes.{signer_of, is_kind};

    /// A tracker that keeps votes as the mode says. It takes no memory.
    pub fn new(alloc: Global, participants: usize, mode: Mode) -> Self
        requires { participants < 2 ^ 32 }
        ensures participants { result.participants ≡ participants }
        ensures mode { result.mode ≡ mode }
        ensures holds { result.holds ≡ nothing_tracked mode }
    {
        let is_compacted = mode.is_skipped();
        VoteTracker {
            mode,
            compacted: Marks {
                notarize: is_compacted,
                nullify: is_compacted,
                finalize: is_compacted,
            },
            entries: AttributableMap::new(alloc, participants),
            kept: KeptLists::new(alloc),
        }
    }

    /// How the votes are kept.
    pub fn mode(&self) -> Mode
        ensures { result ≡ self.now.mode }
    {
        self.mode
    }

    /// Where the signer's entry is, else where it would be. `make_room` keeps all places. It
    /// takes no memory.
    pub fn place(&self, signer: Participant) -> Place
        ensures { result ≡ place_of self.now.signers signer.0 }
    {
        self.entries.place(signer)
    }

    /// The same, where it is known how many entries are of lower signers. Who goes over all signers
    /// in their order knows that, and needs no search.
    pub fn place_after(&self, lower: usize, signer: Participant) -> Place
        requires { lower ≡ count (λ s. nat_lt s signer.0) self.now.signers }
        ensures place { result ≡ place_of self.now.signers signer.0 }
        ensures next { count (λ s. nat_lt s (signer.0 + 1)) self.now.signers
            ≡ lower + (if is_ok result then 1 else 0) }
    {
        self.entries.place_after(lower, signer)
    }

    /// Records a vote, where `place` gave the place of its signer, which is in range.
    pub fn record_at(
        &mut self,
        place: Place,
        vote: &Vote<G, D>,
        proposal: Option<&Proposal<D>>,
    ) -> Result<Outcome, AllocError>
        requires place { place ≡ place_of self.old.signers (signer_of vote.now) }
        requires range { signer_of vote.now < self.old.participants }
        ensures outcome { IfOk result (λ outcome. outcome
            ≡ outcome_of D.eq self.old.participants self.old.holds (option_copied proposal.entry)
            vote.now) }
        ensures records { OnOk result ((kind : Kind)
            → RecordsKind D.eq self.old.holds self.new.holds (option_copied proposal.entry) true
            vote.now kind) }
        ensures err { OnErr result (self.new.holds ≡ self.old.holds) }
        ensures participants { self.new.participants ≡ self.old.participants }
        ensures mode { self.new.mode ≡ self.old.mode }

        // It takes memory for a signer of whom no vote was recorded, and for a vote that is kept.
        // After `make_room` it takes none.
        ensures known { is_known self.old.holds (signer_of vote.now) ≡ true
            → of_kind self.old.holds.compacted (kind_of vote.now) ≡ true → IsOk result }
        ensures repeated { is_seen (observed self.old.holds (kind_of vote.now)
            (signer_of vote.now)) ≡ true → IsOk result }
        ensures with_room { HasRoomToRecord self.old place (kind_of vote.now) → IsOk result }
    {
        let kind = vote.kind();
        let is_compacted = self.compacted.of(kind);
        let seen = seen_at(&self.entries, place, kind);
        if seen.is_kept() {
            return Ok(Outcome::Duplicate { retained: true });
        }
        make_room_at(&mut self.entries, &mut self.kept, place, kind, is_compacted)?;
        if is_compacted {
            let is_selected = is_selected(vote.proposal(), proposal);
            let next = seen.compared(is_selected);
            put_at(&mut self.entries, place, vote.signer(), kind, next);
            return Ok(seen.outcome(true, is_selected));
        }
        let next = Seen::Kept(self.kept.len(kind) as u32);
        self.kept.push(vote);
        put_at(&mut self.entries, place, vote.signer(), kind, next);
        Ok(Outcome::Added { retained: true })
    }

    /// What `record_at` would answer, with nothing changed. It takes no memory.
    pub fn outcome_at(
        &self,
        place: Place,
        vote: &Vote<G, D>,
        proposal: Option<Proposal<D>>,
    ) -> Outcome
        requires { place ≡ place_of self.now.signers (signer_of vote.now) }
        ensures { result ≡ outcome_by D.eq proposal
            (of_kind self.now.holds.compacted (kind_of vote.now))
            (observed self.now.holds (kind_of vote.now) (signer_of vote.now)) vote.now }
    {
        let kind = vote.kind();
        let seen = seen_at(&self.entries, place, kind);
        let is_selected = is_selected(vote.proposal(), proposal.as_ref());
        seen.outcome(self.compacted.of(kind), is_selected)
    }

    /// Makes room for one record of a vote of the kind, of a signer whose place `place` gave, and
    /// changes nothing else. Where there is room it takes no memory.
    pub fn make_room(&mut self, place: Place, kind: Kind) -> Result<(), AllocError>
        ensures room { OnOk result (HasRoomToRecord self.new place kind) }
        ensures holds { self.new.holds ≡ self.old.holds }
        ensures signers { self.new.signers ≡ self.old.signers }
        ensures participants { self.new.participants ≡ self.old.participants }
        ensures mode { self.new.mode ≡ self.old.mode }
        ensures no_memory { HasRoomToRecord self.old place kind → IsOk result }
    {
        let is_compacted = self.compacted.of(kind);
        make_room_at(&mut self.entries, &mut self.kept, place, kind, is_compacted)
    }

    /// Releases the votes of a kind, unless votes are retained: facts take their place, compared
    /// with the proposal. It takes no memory, and gives that of the votes back.
    pub fn release(&mut self, released: Kind, selected: Option<Proposal<D>>)
        ensures releases { (kind : Kind)
            → ReleasesKind D.eq self.old.holds self.new.holds selected
            (is_kind released kind && is_released_in self.old.mode true) kind }
        ensures others { (kind : Kind) → is_kind released kind ≡ false
            → SameTrackerState self.old.holds self.new.holds kind }
        ensures participants { self.new.participants ≡ self.old.participants }
        ensures mode { self.new.mode ≡ self.old.mode }
    {
        if self.mode.is_releasing() && !self.compacted.of(released) {
            release_each(&mut self.entries, &self.kept, released, selected.as_ref());
            self.kept.clear(released);
            self.compacted = self.compacted.with(released);
        }
    }

    /// The notarize of the signer that is kept.
    pub fn notarize(&self, signer: Participant) -> Option<Notarize<G, D>>
        ensures { option_map NotarizeVote result ≡ kept_vote self.now.holds Notarization signer.0 }
    {
        let place = self.entries.place(signer);
        let seen = seen_at(&self.entries, place, Kind::Notarization);
        self.kept.notarize(seen)
    }

    /// The vote of the kind, where one was seen of the signer whose place `place` gave.
    pub fn saw_at(&self, place: Place, kind: Kind) -> Option<ObservedVote<Vote<G, D>>>
        ensures { (i : ℕ) → place ≡ place_of self.now.signers i → result
            ≡ shown (observed self.now.holds kind i) }
    {
        self.kept
            .observed(kind, seen_at(&self.entries, place, kind))
    }

    /// Whether a vote of the kind was seen of the signer whose place `place` gave. Unlike `saw_at`
    /// it copies no vote.
    pub fn has_seen_at(&self, place: Place, kind: Kind) -> bool
        ensures { (i : ℕ) → place ≡ place_of self.now.signers i → result
            ≡ is_seen (observed self.now.holds kind i) }
    {
        seen_at(&self.entries, place, kind).is_any()
    }

    /// Whether votes of the kind aren't kept.
    pub fn is_compacted(&self, kind: Kind) -> bool
        ensures { result ≡ of_kind self.now.holds.compacted kind }
    {
        self.compacted.of(kind)
    }

    /// Whether the signer whose place `place` gave is known to have the proposal's block, since it
    /// notarized it or finalized it. Of a compacted kind it is known whether a vote was for the
    /// selected proposal, and such a vote counts for whichever proposal is asked about.
    pub fn has_block_at(&self, place: Place, proposal: &Proposal<D>) -> bool
        ensures { (i : ℕ) → place ≡ place_of self.now.signers i → result
            ≡ (is_seen_for D.eq proposal.now (observed self.now.holds Notarization i)
            || is_seen_for D.eq proposal.now (observed self.now.holds Finalization i)) }
    {
        self.has_vote_at(place, Kind::Notarization, proposal)
            || self.has_vote_at(place, Kind::Finalization, proposal)
    }

    // Whether a vote of the kind for the proposal was seen of the signer whose place `place` gave.
    fn has_vote_at(&self, place: Place, kind: Kind, proposal: &Proposal<D>) -> bool
        ensures { (i : ℕ) → place ≡ place_of self.now.signers i → result
            ≡ is_seen_for D.eq proposal.now (observed self.now.holds kind i) }
    {
        let seen = seen_at(&self.entries, place, kind);
        self.kept.is_seen_for(kind, seen, proposal)
    }

    /// Whether a nullify of the signer is kept.
    pub fn has_nullify(&self, signer: Participant) -> bool
        ensures { result ≡ is_some (kept_vote self.now.holds Nullification signer.0) }
    {
        let place = self.entries.place(signer);
        seen_at(&self.entries, place, Kind::Nullification).is_kept()
    }

    /// The votes of a kind that are kept, in ascending order of their signers.
    pub fn iter_kept(&self, kind: Kind) -> KeptVotes<'_, G, D>
        ensures votes { result ≡ of_kind self.now.holds.kept kind }
        ensures each { KeepsEach self.now.holds kind }
    {
        KeptVotes {
            kind,
            rest: self.entries.as_slice(),
            kept: &self.kept,
        }
    }

    /// How many of the kept votes of a kind wait with the proposal.
    pub fn count_for(&self, kind: Kind, proposal: &Proposal<D>) -> usize
        ensures count { result ≡ length (filter (is_eligible D.eq (Some proposal.now))
            (of_kind self.now.holds.kept kind)) }
        ensures none { of_kind self.now.holds.compacted kind ≡ true → result ≡ 0 }
    {
        count_for(self.entries.as_slice(), &self.kept, kind, proposal)
    }
}

// How many of the entries' votes of the kind wait with the proposal.
fn count_for<G: Copy, D: Digest>(
    entries: &[Entry],
    kept: &KeptLists<G, D>,
    kind: Kind,
    proposal: &Proposal<D>,
) -> usize
    ensures { result ≡ length (filter
        (λ entry. is_some_and (vote_at (of_kind (votes_in kept.now) kind) (part kind entry))
        (is_eligible D.eq (Some proposal.now))) entries.now) }
{
    entries
        .iter()
        .filter(|entry| kept.keeps_for(kind, entry.seen(kind), proposal))
        .count()
}

/// The votes of a kind that are kept, in ascending order of their signers.
#[derive(Drop)]
pub struct KeptVotes<'a, G: Copy, D: Digest> {
    kind: Kind,
    rest: &'a [Entry],
    kept: &'a KeptLists<G, D>,
}

impl<'a, G: Copy, D: Digest> Model for KeptVotes<'a, G, D> {
    ghost use Rattle.std.specs.Prelude.{List};
    ghost use Rattle.batcher_types.specs.declared.messages.Vote.{Vote};

    ghost Value = { List (Vote G D) };

    ghost use Rattle.std.specs.List.{filter_map};
    ghost use Rattle.batcher_votes.specs.RoundState.{of_kind};
    ghost use Rattle.batcher_votes.specs.Entries.{part, votes_in, vote_at};

    ghost view = { λ s. filter_map
        (λ entry. vote_at (of_kind (votes_in s.kept.now) s.kind) (part s.kind entry)) s.rest.now };
}

impl<'a, G: Copy, D: Digest> Iterator for KeptVotes<'a, G, D> {
    type Item = Vote<G, D>;

    ghost next_gives = { YieldsFirst (λ s. s) };

    ghost remaining = { item_count (λ s. s) };

    fn next(&mut self) -> Option<Vote<G, D>> {
        while let Some((first, others)) = self.rest.split_first() {
            self.rest = others;
            if let Some(vote) = self.kept.vote(self.kind, first.seen(self.kind)) {
                return Some(vote);
            }
        }
        None
    }
}
