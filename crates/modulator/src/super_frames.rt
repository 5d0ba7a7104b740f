// The number of super-frames that carry the words of a stream.
ghost use Rattle.std.specs.Prelude.{◌≡◌, ◌+◌, ◌*◌, ◌<◌, ◌≤◌, IfSome, IfNone};
ghost use Rattle.spec_words.specs.Words.{rounded_up};
ghost use Rattle.modulator.specs.Carrying.{IsLeastFor};

use mode_set::{Settings, Stream};
use symbol_parameters::laws::{settings as super_frame_settings, words as words_of_super_frames};

// The least number of super-frames that carry `wanted` words, at `words` each; none if `words` is 0 and words are
// wanted.
fn super_frames_of(wanted: u64, words: u32) -> Option<u64>
    requires some { 0 < wanted }
    requires few { wanted ≤ 100000011 }
    ensures found { IfSome result (λ n. (0 < words) × (n ≡ rounded_up wanted words)) }
    ensures none { IfNone result (words ≡ 0) }
{
    if words == 0 {
        return None;
    }
    Some(wanted.div_ceil(words as u64))
}

// The same within the next `span` super-frames.
fn super_frames_within(wanted: u64, words: u32, span: u32) -> Option<u64>
    requires some { 0 < wanted }
    requires few { wanted ≤ 100000011 }
    ensures found { IfSome result (λ n. (0 < words) × (n ≡ rounded_up wanted words) × (n ≤ span)) }
    ensures none { IfNone result (span * words < wanted) }
{
    let more = super_frames_of(wanted, words)?;
    if more > span as u64 {
        return None;
    }
    Some(more)
}

/// The least number of super-frames that carry `wanted` words of a stream; none if no number does. It advances from
/// change to change of the parameters, as all super-frames between them carry the same number.
pub(crate) fn super_frames_for(settings: &Settings, stream: Stream, wanted: u64) -> Option<u64>
    requires some { 0 < wanted }
    requires few { wanted ≤ 100000011 }
    ensures { IsLeastFor settings.now stream wanted result }
{
    super_frame_settings();
    words_of_super_frames();
    let mut start = 0;
    let mut carried = 0;
    for i in 0..settings.plan.len() {
        let words = settings
            .with_entry(&settings.entry(start))
            .words_per_super_frame(stream);
        let span = settings.plan.get(i).after - start;
        if let Some(more) = super_frames_within(wanted - carried, words, span) {
            return Some(start as u64 + more);
        }
        carried += span as u64 * words as u64;
        start += span;
    }
    let words = settings
        .with_entry(&settings.entry(start))
        .words_per_super_frame(stream);
    let more = super_frames_of(wanted - carried, words)?;
    Some(start as u64 + more)
}
