//! The board, on which the last publish is posted.

ghost use Rattle.std.specs.Prelude.{◌≡◌, ◌⊎◌};
ghost use mathlib.Core.List.{IsPrefix};

use crate::name::{NodeName, Told};
use crate::view::View;
use std::marker::Model;
use std::sync::{Mutex, Wait};

/// What was published when it was posted. A contract sees its steps.
#[derive(Drop)]
pub struct Board<K: NodeName> {
    told: Told<K>,
}

impl<K: NodeName> Model for Board<K> {
    ghost use Rattle.std.specs.Prelude.{List};
    ghost use Rattle.std.specs.Coded.{coded_list};
    ghost use Rattle.ovs_links.specs.contracts.step.Step as step_row;
    ghost use Rattle.ovs_links.specs.declared.step.Step.{Step};

    ghost Value = { List Step };

    ghost coded = { coded_list step_row.the_row.coded };

    ghost view = { λ b. b.told };
}

impl<K: NodeName> Board<K> {
    /// A board with this prefix on it.
    pub fn new(told: Told<K>) -> Board<K>
        ensures value { result ≡ told }
    {
        Board { told }
    }

    /// Posts a prefix that was published. Of it and the one on the board the longer stays.
    pub fn post(&mut self, told: &Told<K>)
        ensures one { (self.new ≡ self.old) ⊎ (self.new ≡ told.now) }
        ensures kept { IsPrefix self.old self.new }
        ensures told { IsPrefix told.now self.new }
    {
        self.told = self.told.longer(told);
    }

    /// The view learns what is on the board.
    pub fn teach(&self, view: &mut View<K>)
        ensures one { (view.new ≡ view.old) ⊎ (view.new ≡ self.now) }
        ensures kept { IsPrefix view.old view.new }
        ensures told { IsPrefix self.now view.new }
    {
        view.learn(&self.told);
    }
}

/// The view learns what is on a board that threads share.
pub fn teach<K: NodeName>(rt: &impl Wait, board: &Mutex<Board<K>>, view: &mut View<K>)
    ensures kept { IsPrefix view.old view.new }
{
    board.lock(rt).teach(view);
}
