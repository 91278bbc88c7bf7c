// hand_out::hand_out: the first slot of each tile.
ghost use Rattle.groatpocket.specs.Calls.{GpHandMet};

#[unsafe(no_mangle)]
pub extern "C" fn gp_hand_out(counts: &mut [u32], tally: &mut [u32], room: u32) -> u32
    ensures { GpHandMet room counts.old tally.old result counts.new tally.new }
{
    groatpocket::call_hand_out::gp_hand_out(counts, tally, room)
}
