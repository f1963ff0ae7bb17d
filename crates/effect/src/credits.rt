// The credits.
ghost use Rattle.std.specs.Prelude.{◌≡◌};
ghost use Rattle.plain.specs.Record.{credits_in};
ghost use Rattle.plain.specs.Run.{credited};

use plain::Credit;
use run::{one_more, place_of};

// What an event does to the credits.
#[tactic(auto, using(crate::proofs::Laws::set_past), unfolding(plain::specs::Run::credited, plain::specs::Run::cooked))]
pub fn settle(credits: &mut [u32; 99], store: &[u8], credit: Credit)
    ensures { credits.new ≡ credited credit (credits_in store.now) credits.old }
{
    match credit {
        Credit::Keep => {}
        Credit::Cook(k) => {
            let at = place_of(k);
            if at < 99 {
                credits[at] = one_more(credits[at]);
            }
        }
        Credit::Clear => *credits = [0; 99],
        Credit::Restore => *credits = checkpoint::read_credits(store),
    }
}
