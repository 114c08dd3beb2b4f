//! The rule of the shared desk, and what each step tells.
use crate::view::View;
use atomic_table::{Join, Play, Split, TableRule};
use lsp_desk::PlainDesk;
use std::marker::{Brand, PhantomData};

pub struct Turns;

impl TableRule<PlainDesk, View, ()> for Turns {
    ghost use Rattle.lsp_shared.specs.Rule.{Kept, newcomer};

    ghost holds = { λ _ s. Kept s };

    ghost first = { λ _. newcomer };
}

/// The call that a turn is for.
pub trait Note {
    ghost use Rattle.lsp_shared.specs.declared.view.Asked.{Asked};

    ghost call: { Asked };
}

impl Note for Brand {
    ghost use Rattle.lsp_shared.specs.Steps.{some_call};

    ghost call = { some_call };
}

/// The entry that a turn makes.
pub trait Said {
    ghost use Rattle.lsp_shared.specs.declared.view.Item.{Item};

    ghost item: { Item };
}

impl Said for Brand {
    ghost use Rattle.lsp_shared.specs.Steps.{some_item};

    ghost item = { some_item };
}

pub struct Reads;

impl Play<PlainDesk, View> for Reads {
    ghost use Rattle.lsp_shared.specs.Steps.{Read};

    ghost then = { Read };
}

pub struct Draws;

impl Play<PlainDesk, View> for Draws {
    ghost use Rattle.lsp_shared.specs.Steps.{Drew};

    ghost then = { Drew };
}

pub struct Takes;

impl Play<PlainDesk, View> for Takes {
    ghost use Rattle.lsp_shared.specs.Steps.{TookTurn};

    ghost then = { TookTurn };
}

pub struct Passes<N> {
    said: PhantomData<N>,
}

impl<N: Said> Play<PlainDesk, View> for Passes<N> {
    ghost use Rattle.lsp_shared.specs.Steps.{Passed};

    ghost then = { Passed N.item };
}

pub struct Halves;

impl Split<View> for Halves {
    ghost use Rattle.lsp_shared.specs.Steps.{half, rest_of};

    ghost left = { rest_of };

    ghost right = { half };
}

pub struct Joins;

impl Join<View> for Joins {
    ghost use Rattle.lsp_shared.specs.Steps.{joined, empty};

    ghost both = { joined };

    ghost spent = { empty };
}

pub struct Learns;

impl Play<PlainDesk, View> for Learns {
    ghost use Rattle.lsp_shared.specs.Steps.{Learned};

    ghost then = { Learned };
}
