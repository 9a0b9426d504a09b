//! An accepted command, and the list of them.

ghost use Rattle.std.specs.Prelude.{◌≡◌};
ghost use Rattle.host_model.specs.State.{with_outcome};

use host_orders::Carriage;
use std::marker::Model;
use zw_base::Order;
use zw_text::Outcome;

/// The order, how it is carried, and what became of it. Contracts see the three.
#[derive(Drop)]
pub struct Command {
    pub(crate) order: Order,
    pub(crate) carriage: Carriage,
    outcome: Outcome,
}

impl Model for Command {
    ghost use Rattle.host_model.specs.State.{Command as Taken};

    ghost Value = { Taken };

    ghost view = { λ c. record { order = c.order; carriage = c.carriage; outcome = c.outcome } };
}

impl Command {
    ghost use Rattle.zw_text.specs.declared.entry.Outcome.TheVariants.{Waiting as waits};

    /// It waits for its node.
    pub fn new(order: Order, carriage: Carriage) -> Command
        ensures { result ≡ record { order = order; carriage = carriage; outcome = waits } }
    {
        Command {
            order,
            carriage,
            outcome: Outcome::Waiting,
        }
    }

    /// What was asked.
    pub fn order(&self) -> &Order
        ensures { result.now ≡ self.now.order }
    {
        &self.order
    }

    /// How it is carried.
    pub fn carriage(&self) -> Carriage
        ensures { result ≡ self.now.carriage }
    {
        self.carriage
    }

    /// What became of it.
    pub fn outcome(&self) -> Outcome
        ensures { result ≡ self.now.outcome }
    {
        self.outcome
    }

    // It became this.
    fn set_outcome(&mut self, outcome: Outcome)
        ensures { self.new ≡ record self.old { outcome = outcome } }
    {
        self.outcome = outcome;
    }
}

/// The command of a number became this, where there is one.
pub fn set_outcome(commands: &mut Vec<Command>, number: u32, outcome: Outcome)
    ensures { commands.new.items ≡
        with_outcome commands.old.items number outcome }
{
    if number == 0 {
        return;
    }
    let at = number as usize - 1;
    if at < commands.len() {
        commands[at].set_outcome(outcome);
    }
}
