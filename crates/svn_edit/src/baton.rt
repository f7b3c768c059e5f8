//! What an edit keeps of an open file or directory.
ghost use Rattle.std.specs.Prelude.{◌≡◌, ◌≢◌, ◌∷◌, [], List, length, IfOk, OnOk, OnErr, Some, filter_map, unwrap_or};
ghost use Rattle.std.specs.Option.{option_copied};
ghost use Rattle.std.specs.List.{list_any};
ghost use Rattle.svn_types.specs.Props.{with_changes};
ghost use Rattle.svn_pool.specs.Pools.{Entry, pool_at, strings_at, pushed};
ghost use Rattle.svn_editor.specs.Steps.{Action};
ghost use Rattle.svn_edit.specs.declared.baton.Note.{Note as NoteOf};
ghost use Rattle.svn_edit.specs.declared.baton.Note.TheVariants.{Text as NewText};
ghost use Rattle.svn_model.specs.Effects.{change_in, text_in};
ghost use Rattle.svn_edit.specs.Noted.{is_change, note_of_value, strings_of_value};
ghost use Rattle.svn_nodes.specs.NodeTests.{first_of};
ghost use Rattle.svn_edit.specs.Leaving.{SamePools, BatonBegan};
ghost use Rattle.svn_edit.specs.Applying.{BatonBegun, BatonSaid, Says, IsLeaf, PoolGone, Properties, StillSaid};

use crate::open_path::OpenPath;
use smallvec::SmallVec;
use std::alloc::{AllocError, Global};
use svn_editor::Digest;
use svn_pool::{PoolFault, PoolId, PoolTree, Reader};
use svn_types::{PathFault, PropName, Props, Text, impossible};

/// What the strings of a baton's pool say, after the first, which is the path's key.
#[derive(Clone, Copy, Default)]
pub(crate) enum Note {
    /// Two strings: the name of a property, and its new value.
    Set,
    /// One string: the name of a property that goes.
    Remove,
    /// One string: the text. A place that holds no note yet holds this.
    #[default]
    Text,
}

// Whether one of the notes is of a property.
fn has_change(notes: &[Note]) -> bool
    ensures { result ≡ list_any is_change notes.now }
{
    notes
        .iter()
        .any(|note| matches!(note, Note::Set | Note::Remove))
}

// How many notes a baton holds in place: a text or a few properties need no other block.
const FEW_NOTES: usize = 8;

/// Where the text that came for a file lies among the strings of its pool.
#[derive(Clone, Copy)]
pub(crate) struct NotedText {
    place: u32,
}

/// An open file or directory. All files may be open at once, so it is small.
#[derive(Drop)]
pub(crate) struct Baton {
    pub(crate) path: OpenPath,
    pub(crate) pool: PoolId,
    pub(crate) notes: SmallVec<Note, FEW_NOTES>,
    pub(crate) text: Option<NotedText>,
    /// Of a file that was opened, the checksum of the text that its node has, where that keeps it. No call but its close changes that node.
    pub(crate) base: Option<Digest>,
}

// The fault of a pool, as one of memory: the pools of batons are live, and what is pushed has a length that was tested.
fn out_of_memory(fault: PoolFault) -> AllocError {
    match fault {
        // where a pool can count no more strings or blocks, it has no room either
        PoolFault::Memory | PoolFault::Full => AllocError,
        PoolFault::Gone | PoolFault::TooLong | PoolFault::IsRoot => impossible(AllocError),
    }
}

// Pushes a string, and returns its place.
fn push(pools: &mut PoolTree<Global>, pool: PoolId, bytes: &[u8]) -> Result<u32, AllocError>
    ensures pushed { OnOk result (pools.new ≡ pushed pools.old pool.0 bytes.now) }
    ensures place { IfOk result (λ place. place ≡ length (strings_at pools.old pool.0)) }
    ensures refused { OnErr result (pools.new ≡ pools.old) }
{
    match pools.push(pool, bytes) {
        Ok(place) => Ok(place),
        Err(fault) => Err(out_of_memory(fault)),
    }
}

/// Destroys a pool that has none below it.
pub(crate) fn drop_pool(pools: &mut PoolTree<Global>, pool: PoolId)
    ensures { (e : Entry) → pool_at pools.old pool.0 ≡ Some e → IsLeaf pools.old pool.0 → pool.0 ≢ pools.old.root → PoolGone pool.0 pools.old pools.new }
{
    match pools.destroy(pool) {
        Ok(()) => (),
        Err(_) => (),
    }
}

impl Baton {
    /// A baton whose pool is made below another, and holds the path's key. If an allocation fails, no pool is left.
    pub(crate) fn open(
        alloc: Global,
        pools: &mut PoolTree<Global>,
        beneath: PoolId,
        path: OpenPath,
    ) -> Result<Baton, AllocError>
        ensures begun { IfOk result (λ b. BatonBegun beneath.0 path pools.old b pools.new) }
        ensures kept { OnErr result (SamePools pools.old pools.new) }
    {
        let pool = match pools.create(beneath) {
            Ok(pool) => pool,
            Err(fault) => return Err(out_of_memory(fault)),
        };
        if let Err(fault) = pools.push(pool, path.as_rel_path().key().as_bytes()) {
            drop_pool(pools, pool);
            return Err(out_of_memory(fault));
        }
        Ok(Baton {
            path,
            pool,
            notes: SmallVec::new(alloc),
            text: None,
            base: None,
        })
    }

    /// Notes a change of a property. If an allocation fails, the first of the strings may have been pushed.
    pub(crate) fn note_change(
        &mut self,
        pools: &mut PoolTree<Global>,
        name: &PropName,
        value: &Option<Text>,
    ) -> Result<(), AllocError>
        ensures noted { OnOk result (BatonSaid (note_of_value value.now) (name.now ∷ strings_of_value value.now) self.old pools.old self.new pools.new) }
        ensures began { OnErr result (BatonBegan (name.now ∷ strings_of_value value.now) self.old pools.old self.new pools.new) }
    {
        push(pools, self.pool, name.as_str().as_bytes())?;
        let Some(value) = value else {
            self.notes.push(Note::Remove)?;
            return Ok(());
        };
        push(pools, self.pool, value.as_slice())?;
        self.notes.push(Note::Set)?;
        Ok(())
    }

    /// Notes the text. Where one was noted before, that one counts. If an allocation fails, the string may have been pushed.
    pub(crate) fn note_text(
        &mut self,
        pools: &mut PoolTree<Global>,
        text: &Text,
    ) -> Result<(), AllocError>
        ensures noted { OnOk result (BatonSaid NewText (text.now ∷ []) self.old pools.old self.new pools.new) }
        ensures began { OnErr result (BatonBegan (text.now ∷ []) self.old pools.old self.new pools.new) }
    {
        let place = push(pools, self.pool, text.as_slice())?;
        self.notes.push(Note::Text)?;
        if self.text.is_none() {
            self.text = Some(NotedText { place });
        }
        Ok(())
    }
}

// The name of a property that a string has.
fn prop_name(alloc: Global, bytes: Option<&[u8]>) -> Result<PropName, AllocError>
    ensures { IfOk result (λ n. option_copied bytes.entry ≡ Some n) }
{
    let Some(bytes) = bytes else {
        // a pool has the strings of each note of its baton
        return Err(impossible(AllocError));
    };
    match PropName::from_bytes(alloc, bytes) {
        Ok(name) => Ok(name),
        Err(PathFault::Memory) => Err(AllocError),
        // the string was pushed from a name; but what was said of a path is bytes in the definitions, which don't say so
        Err(_) => Err(impossible(AllocError)),
    }
}

// A text or a value that a string has.
fn copied_text(alloc: Global, bytes: Option<&[u8]>) -> Result<Text, AllocError>
    ensures { IfOk result (λ t. option_copied bytes.entry ≡ Some t) }
{
    let Some(bytes) = bytes else {
        // a pool has the strings of each note of its baton
        return Err(impossible(AllocError));
    };
    Text::from_slice(alloc, bytes)
}

// Makes what a note and the next strings say.
fn make_change(
    alloc: Global,
    note: Note,
    strings: &mut Reader<'_, Global>,
    props: &mut Props,
) -> Result<(), AllocError>
    ensures { OnOk result ((before : Properties) (said : List Action) (notes : List NoteOf) → StillSaid before props.old said (note ∷ notes) strings.old → StillSaid before props.new said notes strings.new) }
{
    match note {
        Note::Set => {
            let name = prop_name(alloc, strings.next())?;
            let value = copied_text(alloc, strings.next())?;
            props.insert(name, value)?;
            Ok(())
        }
        Note::Remove => {
            let name = prop_name(alloc, strings.next())?;
            props.remove(&name);
            Ok(())
        }
        Note::Text => {
            let _text = strings.next();
            Ok(())
        }
    }
}

impl Baton {
    /// The text that was noted.
    pub(crate) fn text<'a>(&self, pools: &'a PoolTree<Global>) -> Option<&'a [u8]>
        ensures { (said : List Action) → Says self.now pools.now said → option_copied result ≡ first_of (filter_map text_in said) }
    {
        match &self.text {
            Some(noted) => pools.get(self.pool, noted.place),
            None => None,
        }
    }

    /// Makes the changes that were noted.
    pub(crate) fn change(
        &self,
        alloc: Global,
        pools: &PoolTree<Global>,
        props: &mut Props,
    ) -> Result<(), AllocError>
        ensures { OnOk result ((said : List Action) → Says self.now pools.now said → props.new ≡ with_changes props.old (filter_map change_in said)) }
    {
        let mut strings = match pools.strings(self.pool) {
            Ok(strings) => strings,
            Err(fault) => return Err(out_of_memory(fault)),
        };
        let _path = strings.next();
        for note in self.notes.as_slice() {
            make_change(alloc, *note, &mut strings, props)?;
        }
        Ok(())
    }

    /// What properties become by the changes that were noted. Where none was, nothing: they stay.
    pub(crate) fn changed(
        &self,
        alloc: Global,
        pools: &PoolTree<Global>,
        props: &Props,
    ) -> Result<Option<Props>, AllocError>
        ensures { IfOk result (λ c. (said : List Action) → Says self.now pools.now said → unwrap_or c props.now ≡ with_changes props.now (filter_map change_in said)) }
    {
        if !has_change(self.notes.as_slice()) {
            return Ok(None);
        }
        let mut changed = props.clone()?;
        self.change(alloc, pools, &mut changed)?;
        Ok(Some(changed))
    }
}
