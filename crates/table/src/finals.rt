// Finals: which configurations are final. A configuration is final where its state is.
ghost use Rattle.std.specs.Prelude.{◌≡◌};
ghost use Rattle.automata.specs.Unfolding.{configurations, final_set};
ghost use Rattle.format.specs.Decoding.{automaton_of};
ghost use Rattle.word_sets.specs.Sets.{view};
ghost use Rattle.table.specs.Standing.{Numbered};

use format::Counts;
use format::fields::flags_at;
use table_operations::configurations::state_of;
use word_layout::CONFIGS;

// Which of the configurations that stand in the words are final, of the automaton whose file has the counts c.
// Cost: one look at each configuration.
pub fn final_configurations(file: &[u8], c: Counts, w: &[u64], count: usize) -> [u64; 4]
    requires { Numbered file.now c w.now count }
    ensures { view count result ≡ final_set (automaton_of file.now) (configurations (automaton_of file.now) 256) }
{
    let flags = flags_at(c);
    let mut out = word_sets::empty();
    for i in 0..count {
        let state = state_of(w[CONFIGS + i]);
        if file[flags + state] == 1 {
            let more = word_sets::with(out, i);
            out = more;
        }
    }
    out
}
