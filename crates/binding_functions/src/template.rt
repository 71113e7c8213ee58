//! Expressions in postfix order, with the functions that they apply put in.

ghost use Rattle.std.specs.Prelude.{◌≡◌, ◌<◌, ◌+◌, ◌||◌, nat_lt, List, [], ◌∷◌, None, false, length, OnOk};
ghost use Rattle.std.specs.List.{AllZip};
ghost use Rattle.binding_kinds.specs.Formula.{postfix};
ghost use Rattle.binding_kinds.specs.Senses.{Sense, HasSense};
ghost use Rattle.binding_kinds.specs.Functions.{named_formula};
ghost use Rattle.binding_functions.specs.Templates.{piece_with, pieces_with, IsTemplate, IsGrown};

use binding_kinds::{Binder, Found, Function, MAX_SIZE, Piece};
use std::alloc::{AllocError, Global};

/// An expression in postfix order, with the functions that it applies put in.
#[derive(Drop)]
pub struct Template {
    /// Its parts, where none of it is too large.
    pub pieces: Vec<Piece>,
    /// Whether an application in it is too large, so that not all parts are there.
    pub is_oversized: bool,
}

impl Template {
    /// Nothing yet.
    pub fn new(alloc: Global) -> Template
        ensures pieces { result.pieces.items ≡ [] }
        ensures is_oversized { result.is_oversized ≡ false }
    {
        Template {
            pieces: Vec::new(alloc),
            is_oversized: false,
        }
    }

    /// Takes everything out, and keeps the memory.
    pub fn clear(&mut self)
        ensures pieces { self.new.pieces.items ≡ [] }
        ensures is_oversized { self.new.is_oversized ≡ false }
    {
        self.pieces.clear();
        self.is_oversized = false;
    }

    /// Appends a piece. Errors: want of memory.
    pub fn put(&mut self, piece: Piece) -> Result<(), AllocError>
        ensures { OnOk result (IsGrown self.old self.new (piece ∷ []) ⊥) }
    {
        self.pieces.push(piece)?;
        Ok(())
    }

    /// Appends a name without arguments that is no parameter and was looked for. One that is
    /// unbound, or a function, stands as the empty relation. Errors: want of memory.
    pub fn put_name(&mut self, found: Option<Found>) -> Result<(), AllocError>
        ensures { OnOk result (IsGrown self.old self.new (postfix (named_formula None found)) ⊥) }
    {
        match found {
            None => self.put(Piece::NoPairs),
            Some(found) => match found.binder {
                Binder::Predefined(_) => self.put(Piece::Value(found)),
                Binder::Bound(_) => self.put(Piece::Value(found)),
                Binder::Applicable(_) => self.put(Piece::NoPairs),
            },
        }
    }

    /// Appends an argument.
    fn put_argument(&mut self, argument: &Template) -> Result<(), AllocError>
        ensures { (whole : List Piece) → IsTemplate argument.now whole
            → OnOk result (IsGrown self.old self.new whole (4096 < length whole)) }
    {
        if argument.is_oversized {
            self.is_oversized = true;
            return Ok(());
        }
        self.pieces.extend_from_slice(&argument.pieces)?;
        Ok(())
    }

    /// Appends a part of the body of a function, where a parameter stands for its argument.
    fn put_part(&mut self, piece: Piece, arguments: &[Template]) -> Result<(), AllocError>
        ensures { (wholes : List (List Piece)) → AllZip IsTemplate arguments.now wholes
            → OnOk result (IsGrown self.old self.new (piece_with wholes piece)
            (4096 < length (piece_with wholes piece))) }
    {
        match piece {
            Piece::Parameter(index) => match arguments.get(index) {
                Some(argument) => self.put_argument(argument),
                None => self.put(Piece::NoPairs),
            },
            Piece::Value(_) => self.put(piece),
            Piece::Everything => self.put(piece),
            Piece::NoPairs => self.put(piece),
            Piece::NoEvents => self.put(piece),
            Piece::Joined(_) => self.put(piece),
            Piece::Marked(_) => self.put(piece),
            Piece::Complement => self.put(piece),
            Piece::Identity => self.put(piece),
        }
    }

    /// Marks what has grown by more than an application may have since that length.
    fn bound(&mut self, start: usize)
        ensures pieces { self.new.pieces ≡ self.old.pieces }
        ensures is_oversized { self.new.is_oversized
            ≡ (self.old.is_oversized || nat_lt (4096 + start) (length self.old.pieces.items)) }
    {
        let most = start.saturating_add(MAX_SIZE);
        self.is_oversized = self.is_oversized || most < self.pieces.len();
    }

    /// Appends the body of a function with the arguments in the places of the parameters.
    fn put_body(&mut self, body: &[Piece], arguments: &[Template]) -> Result<(), AllocError>
        ensures { (wholes : List (List Piece)) → AllZip IsTemplate arguments.now wholes
            → OnOk result (IsGrown self.old self.new (pieces_with wholes body.now)
            (4096 < length (pieces_with wholes body.now))) }
    {
        let start = self.pieces.len();
        for piece in body {
            self.put_part(*piece, arguments)?;
            self.bound(start);
            if self.is_oversized {
                return Ok(());
            }
        }
        Ok(())
    }

    /// Appends what the function makes of the arguments. Errors: want of memory.
    pub fn put_function(
        &mut self,
        function: &Function,
        arguments: &[Template],
    ) -> Result<(), AllocError>
        ensures { (s : Sense) (wholes : List (List Piece)) → HasSense function.now s
            → AllZip IsTemplate arguments.now wholes
            → OnOk result (IsGrown self.old self.new (pieces_with wholes (postfix s.formula))
            (4096 < length (pieces_with wholes (postfix s.formula)))) }
    {
        if function.is_oversized {
            self.is_oversized = true;
            return Ok(());
        }
        self.put_body(&function.template, arguments)
    }

    /// The same, marked where it is longer than an application may be.
    pub(crate) fn bounded(self) -> Template
        ensures { (whole : List Piece) → IsTemplate self whole → IsTemplate result whole }
    {
        if self.pieces.len() <= MAX_SIZE {
            return self;
        }
        Template {
            pieces: self.pieces,
            is_oversized: true,
        }
    }
}
