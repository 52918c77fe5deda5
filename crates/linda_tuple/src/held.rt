//! The parts of a tuple, and how a tuple holds them: by itself, or together with its copies.

ghost use Rattle.std.specs.Prelude.{◌≡◌, ◌∷◌, [], IfOk};
ghost use Rattle.linda_tuple.specs.Held.{held_tuple, tuple_of};

use crate::atom::Atom;
use crate::limits::SHARED_FROM;
use crate::tuple::copies;
use std::alloc::{AllocError, Global};
use std::slice;
use std::sync::Arc;

/// A tag and the fields that follow it.
#[derive(Debug, Drop)]
pub(crate) struct Parts {
    pub(crate) tag: Atom,
    pub(crate) fields: Vec<Atom>,
}

/// Where the parts of a tuple are.
#[derive(Debug, Drop)]
pub(crate) enum Held {
    /// In the tuple itself. A copy has memory of its own.
    Own(Parts),
    /// A tag and the only field, in the tuple itself: it takes no memory for a list of fields.
    Single { tag: Atom, field: Atom },
    /// In memory that the tuple has in common with its copies.
    Shared(Arc<Parts, Global>),
}

impl Held {
    /// A tag and fields in the tuple itself. Takes no memory.
    pub(crate) fn own(tag: Atom, fields: Vec<Atom>) -> Held
        ensures { held_tuple result ≡ record { tag = tag; fields = fields.items } }
    {
        let mut fields = fields;
        if fields.len() == 1
            && let Some(field) = fields.pop()
        {
            return Held::Single { tag, field };
        }
        Held::Own(Parts { tag, fields })
    }

    /// The tag.
    pub(crate) fn tag(&self) -> &Atom
        ensures { result.now ≡ (held_tuple self.now).tag }
    {
        match self {
            Held::Own(parts) => &parts.tag,
            Held::Single { tag, .. } => tag,
            Held::Shared(parts) => &(**parts).tag,
        }
    }

    /// The fields, in order.
    pub(crate) fn fields(&self) -> &[Atom]
        ensures { result.now ≡ (held_tuple self.now).fields }
    {
        match self {
            Held::Own(parts) => &parts.fields,
            Held::Single { field, .. } => slice::from_ref(field),
            Held::Shared(parts) => &(**parts).fields,
        }
    }

    /// A copy: of own parts in memory of its own, of shared ones in the same.
    pub(crate) fn try_clone(&self, alloc: Global) -> Result<Held, AllocError>
        ensures { IfOk result (λ copy. held_tuple copy ≡ held_tuple self.now) }
    {
        match self {
            Held::Own(parts) => Ok(Held::Own(parts.try_clone(alloc)?)),
            Held::Single { tag, field } => Ok(Held::Single {
                tag: tag.try_clone(alloc)?,
                field: field.try_clone(alloc)?,
            }),
            Held::Shared(parts) => Ok(Held::Shared(Arc::try_clone(parts)?)),
        }
    }

    /// The same parts, in memory to be shared if they are large; as they were if they are not, or
    /// if there is no memory for it.
    pub(crate) fn shared(self, alloc: Global) -> Held
        ensures { held_tuple result ≡ held_tuple self }
    {
        if !self.is_large() {
            return self;
        }
        match self {
            Held::Own(parts) => share(alloc, parts),
            Held::Single { tag, field } => share_single(alloc, tag, field),
            Held::Shared(parts) => Held::Shared(parts),
        }
    }

    // Whether copies are to share the parts, and do not yet.
    fn is_large(&self) -> bool {
        match self {
            Held::Own(parts) => parts.is_large(),
            Held::Single { tag, field } => {
                text_len(tag).saturating_add(text_len(field)) >= SHARED_FROM
            }
            Held::Shared(_) => false,
        }
    }
}

// The parts in memory to be shared; as they were if there is none.
fn share(alloc: Global, parts: Parts) -> Held
    ensures { held_tuple result ≡ tuple_of parts }
{
    match Arc::new(alloc, parts) {
        Ok(shared) => Held::Shared(shared),
        Err(refused) => Held::Own(refused.value),
    }
}

// A tag and the only field in memory to be shared; as they were if there is none.
fn share_single(alloc: Global, tag: Atom, field: Atom) -> Held
    ensures { held_tuple result ≡ record { tag = tag; fields = field ∷ [] } }
{
    let Ok(mut fields) = Vec::with_capacity(alloc, 1) else {
        return Held::Single { tag, field };
    };
    fields.push_reserved(field);
    share(alloc, Parts { tag, fields })
}

impl Parts {
    // A copy with memory of its own.
    fn try_clone(&self, alloc: Global) -> Result<Parts, AllocError>
        ensures { IfOk result (λ copy. tuple_of copy ≡ tuple_of self.now) }
    {
        let tag = self.tag.try_clone(alloc)?;
        let fields = copies(alloc, &self.fields, |f| f.try_clone(alloc))?;
        Ok(Parts { tag, fields })
    }

    // Whether the texts have so many bytes together that copies are to share them.
    fn is_large(&self) -> bool {
        let mut bytes = text_len(&self.tag);
        for field in &self.fields {
            bytes = bytes.saturating_add(text_len(field));
        }
        bytes >= SHARED_FROM
    }
}

// The bytes of a text; 0 of any other atom.
fn text_len(atom: &Atom) -> usize {
    match atom {
        Atom::Text(text) => text.len(),
        Atom::Int(_) => 0,
        Atom::Bool(_) => 0,
    }
}
