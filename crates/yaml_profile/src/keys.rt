//! Keys and the collections that begin, each by what shows it: a dash, a bracket, a colon.

ghost use Rattle.std.specs.Prelude.{◌≡◌, false, string_bytes};
ghost use Rattle.yaml_profile.specs.Answers.{Leaves};
ghost use Rattle.yaml_profile.specs.Pieces.{open_list, open_flow, first_key, further_key, key_of};
ghost use Rattle.yaml_profile.specs.Pieces.{plain_key, is_key_only, is_value_only};
ghost use Rattle.yaml_profile.specs.Inner.Shown.{frames_of, shown};

use crate::front::{Frame, Role, is_full, pop, push};
use crate::reader::{Place, Reader};
use crate::stop::{Stop, stop_at};
use edt_base::{Rule, Text};
use indexmap::IndexSet;

/// Whether a text can only be a further key.
pub(crate) fn is_key_only(role: Role) -> bool
    ensures { result ≡ is_key_only role }
{
    matches!(role, Role::Key)
}

/// Whether a text can only be a value.
pub(crate) fn is_value_only(role: Role) -> bool
    ensures { result ≡ is_value_only role }
{
    matches!(role, Role::Value)
}

impl Reader {
    /// A list begins, at its first dash.
    #[tactic(auto, unfolding(crate::specs::Pieces::open_list))]
    pub(crate) fn open_list(&mut self, start: u64, column: u64, at: u64) -> Result<(), Stop>
        ensures { Leaves (shown self.new) result
            (open_list (frames_of self.old.frames.items) start column at) }
    {
        if is_full(self.frames.as_slice()) {
            return Err(stop_at(Rule::Y4, at));
        }
        let items = Vec::new(self.alloc);
        push(&mut self.frames, Frame::List { column, items })?;
        self.place = Place::Value {
            start,
            mapped: true,
            spaced: false,
        };
        Ok(())
    }

    /// A flow list begins, at its bracket.
    #[tactic(auto, unfolding(crate::specs::Pieces::open_flow))]
    pub(crate) fn open_flow(&mut self, at: u64) -> Result<(), Stop>
        ensures { Leaves (shown self.new) result (open_flow (frames_of self.old.frames.items) at) }
    {
        if is_full(self.frames.as_slice()) {
            return Err(stop_at(Rule::Y4, at));
        }
        let items = Vec::new(self.alloc);
        push(&mut self.frames, Frame::Flow { items })?;
        self.await_value();
        Ok(())
    }

    /// A value follows that is no block.
    pub(crate) fn await_value(&mut self)
        ensures { self.new ≡ record self.old { place = Place.Value 0 false false } }
    {
        self.place = Place::Value {
            start: 0,
            mapped: false,
            spaced: false,
        };
    }

    /// A map begins with a key.
    fn first_key(&mut self, column: u64, key: Text, at: u64) -> Result<(), Stop>
        ensures { Leaves (shown self.new) result
            (first_key (frames_of self.old.frames.items) column key at) }
    {
        if is_full(self.frames.as_slice()) {
            return Err(stop_at(Rule::Y4, at));
        }
        let mut keys = IndexSet::new(self.alloc);
        let _ = keys.insert_full(key)?;
        let values = Vec::new(self.alloc);
        push(
            &mut self.frames,
            Frame::Map {
                column,
                keys,
                values,
            },
        )?;
        self.await_value();
        Ok(())
    }

    /// The innermost map goes on with a key.
    fn further_key(&mut self, key: Text, at: u64) -> Result<(), Stop>
        ensures { Leaves (shown self.new) result
            (further_key (frames_of self.old.frames.items) key at) }
    {
        match pop(&mut self.frames) {
            Some(
                Frame::Map {
                    column,
                    mut keys,
                    values,
                },
            ) => {
                let (_, is_new) = keys.insert_full(key)?;
                if !is_new {
                    return Err(stop_at(Rule::Y3, at));
                }
                push(
                    &mut self.frames,
                    Frame::Map {
                        column,
                        keys,
                        values,
                    },
                )?;
                self.await_value();
                Ok(())
            }
            _ => Err(stop_at(Rule::Y1, at)),
        }
    }

    /// A text that began at `at` is a key, by the colon after it; `fails` is where it shows that no
    /// key can stand there.
    #[tactic(auto, unfolding(crate::specs::Pieces::key_of))]
    pub(crate) fn key_of(
        &mut self,
        role: Role,
        key: String,
        at: u64,
        fails: u64,
    ) -> Result<(), Stop>
        ensures { Leaves (shown self.new) result
            (key_of (frames_of self.old.frames.items) role (string_bytes key) at fails) }
    {
        match role {
            Role::Value => Err(stop_at(Rule::Y1, fails)),
            Role::Either(column) => self.first_key(column, Text::new(key), at),
            Role::Key => self.further_key(Text::new(key), at),
        }
    }

    /// A plain text is a key; the key `<<` is left out.
    #[tactic(auto, unfolding(crate::specs::Pieces::plain_key))]
    pub(crate) fn plain_key(
        &mut self,
        role: Role,
        key: String,
        at: u64,
        fails: u64,
    ) -> Result<(), Stop>
        ensures { Leaves (shown self.new) result
            (plain_key (frames_of self.old.frames.items) role (string_bytes key) at fails) }
    {
        if key.as_str() == "<<" && !is_value_only(role) {
            return Err(stop_at(Rule::Y2, at));
        }
        self.key_of(role, key, at, fails)
    }
}
