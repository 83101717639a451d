// Running commands in a session.

ghost use Rattle.command.specs.Meanings.{Meaning};
ghost use Rattle.model.specs.Soundness.{Sound};
ghost use Rattle.district.specs.Answers.{district_of};
ghost use Rattle.session.specs.Cards.{card_fault};
ghost use Rattle.session.specs.Entries.{told};
ghost use Rattle.session.specs.Follows.{FollowsRules, Gives};
ghost use Rattle.session.specs.Laws.{CardFaultIsCheck, RefusedLineDropsCard};
ghost use Rattle.session.specs.Rules.{ends, finishes};
ghost use Rattle.session.specs.Stages.{new_session, session_of, staged};
ghost use Rattle.session.specs.declared.stage.Stage.TheVariants.{Idle};
ghost use Rattle.std.specs.Prelude.{◌≡◌, Some, Ok, vec_len};

use crate::entry::Entry;
use crate::equipment::Equipment;
use crate::fault::SheetFault;
use crate::stage::{Session, Stage};
use card::card::Card;
use command::command::{Command, Malformed};
use district::district::District;
use node::node::Node;
use places::interface::Places;
use std::mem;

impl<P: Places> Session<P> {
    // A session on a new district over its caller's node cells. Of its lines the laws hold, however reservoirs are made.
    pub fn new(cells: Vec<Option<Node<P>>>) -> Self
        ensures starts { session_of P.Places.reservoirs result ≡ new_session (vec_len cells) }
        ensures sound { Sound P.Places.makes (session_of P.Places.reservoirs result).district }
        ensures refused_line_drops_card { RefusedLineDropsCard P.Places.makes }
        ensures card_fault_is_check { CardFaultIsCheck }
    {
        Session {
            district: District::new(cells),
            stage: Stage::Idle,
        }
    }

    // Runs a line by its meaning.
    pub fn run<E: Equipment<Nodes = P>>(
        &mut self,
        meaning: Result<Option<Command>, Malformed>,
    ) -> Result<Option<Entry>, SheetFault>
        ensures { FollowsRules P.Places.makes E.Equipment.equipped
            (session_of P.Places.reservoirs self.old) meaning (told result)
            (session_of P.Places.reservoirs self.new) }
    {
        let stage = mem::replace(&mut self.stage, Stage::Idle);
        match meaning? {
            None => {
                self.stage = stage;
                Ok(None)
            }
            Some(command) => self.obey::<E>(stage, command),
        }
    }

    // Ends the sheet: refused where a card is half made.
    pub fn finish(&self) -> Result<Option<Entry>, SheetFault>
        ensures { told result ≡ finishes (session_of P.Places.reservoirs self.now).stage }
    {
        match &self.stage {
            Stage::Idle => Ok(None),
            _ => Err(SheetFault::OutOfTurn),
        }
    }

    // Obeys a command at a stage of the card, which was taken out of the session. Stage and letter are matched together, by a
    // rule of the project.
    fn obey<E: Equipment<Nodes = P>>(
        &mut self,
        stage: Stage<P>,
        command: Command,
    ) -> Result<Option<Entry>, SheetFault>
        requires { self.old.stage ≡ Idle }
        ensures { FollowsRules P.Places.makes E.Equipment.equipped
            (staged P.Places.reservoirs self.old.district stage) (Ok (Some command)) (told result)
            (session_of P.Places.reservoirs self.new) }
    {
        match (stage, command) {
            (Stage::Idle, Command::Begin(number, areas)) => {
                self.stage = Stage::HasAreas(number, areas);
                Ok(None)
            }
            (Stage::HasAreas(number, areas), Command::Ground(soil)) => {
                self.stage = Stage::HasSoil(number, areas, soil);
                Ok(None)
            }
            (Stage::HasSoil(number, areas, soil), Command::Equip(fractions)) => {
                let reservoirs = E::equip(&fractions)?;
                self.stage = Stage::HasReservoirs(number, areas, soil, reservoirs);
                Ok(None)
            }
            (
                Stage::HasReservoirs(number, areas, soil, reservoirs),
                Command::Open(concentrations),
            ) => {
                let card = Card {
                    areas,
                    soil,
                    concentrations,
                };
                self.open(number, card, reservoirs)
            }
            (Stage::Idle, Command::Step(number, forcing)) => {
                let answer = self.district.step(number, forcing)?;
                Ok(Some(Entry::Stepped(number, answer.flows)))
            }
            (Stage::Idle, Command::Withdraw(number)) => {
                let ceded = self.district.withdraw(number)?;
                Ok(Some(Entry::Withdrawn(number, ceded)))
            }
            (Stage::Idle, Command::Read) => Ok(Some(Entry::Balance(self.district.read()))),
            (_, _) => Err(SheetFault::OutOfTurn),
        }
    }

    // Checks a card and opens its node.
    fn open(&mut self, number: u32, card: Card, reservoirs: P) -> Result<Option<Entry>, SheetFault>
        requires { self.old.stage ≡ Idle }
        ensures { Gives P.Places.makes (district_of P.Places.reservoirs self.old.district)
            (ends P.Places.makes (district_of P.Places.reservoirs self.old.district) number card (P.Places.reservoirs reservoirs) (card_fault card)) (told result)
            (session_of P.Places.reservoirs self.new) }
    {
        let card = card.check()?;
        let brought_in = self.district.open(number, card, reservoirs)?;
        Ok(Some(Entry::Opened(number, brought_in)))
    }
}
