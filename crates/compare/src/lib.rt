// Whether a netlist is written as a text: the text is walked piece by piece as writing would write it, with no second text.
#![tactic(auto)]

ghost use Rattle.compare.specs.Compared.{Calls, WrittenAs};
ghost use Rattle.compare.specs.Rest.{begins, otherwise, rest_laws};

use netlist::Netlist;
use write::pieces;
use write::pieces::Pieces;

// What of a text is still to be compared.
#[derive(Drop)]
struct Rest<'a> {
    text: &'a [u8],
}

impl Pieces for Rest<'_> {
    ghost takes = { begins };

    ghost refuses = { otherwise };

    ghost laws = { rest_laws };

    // None where the piece does not stand at its front.
    #[tactic(auto, using(crate::specs::Rest::stripped, crate::specs::Rest::not_stripped))]
    fn piece(&mut self, piece: &[u8]) -> Option<()> {
        self.text = self.text.strip_prefix(piece)?;
        Some(())
    }
}

// Whether a call of a primitive stands at a place: its name, a blank and a bracket.
pub fn calls(text: &[u8], at: usize, kind: u16) -> bool
    ensures { Calls text.now at kind result }
{
    let Some(text) = text.get(at..) else {
        return false;
    };
    pieces::call(&mut Rest { text }, kind).is_some()
}

// Whether the words are a well-formed netlist that is written as the text.
pub fn written_as(net: &[u16], text: &[u8]) -> bool
    ensures { WrittenAs net.now text.now result }
{
    let Ok(net) = Netlist::new(net) else {
        return false;
    };
    let mut rest = Rest { text };
    pieces::text(net, &mut rest).is_some() && rest.text.is_empty()
}
