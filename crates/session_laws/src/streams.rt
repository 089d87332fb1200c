//! Laws of the streams of one end (RSocket 1.0, "Stream Sequences and Lifetimes" and "REQUEST_N
//! Frame"), whatever its peer sends.
//!
//! A stream is the request that opened it and the words on it after that. Each law speaks of every
//! lawful list of entries, and what comes before an entry of such a list is one too
//! ([`what_came_before_is_lawful`]). So each law holds at every moment of a session, not at its end
//! alone.

ghost use Rattle.std.specs.Prelude.{◌≡◌, ◌≤◌, ◌++◌, ℕ, false, true, List, [], ◌∷◌, Some};
ghost use Rattle.rs_wire.specs.declared.settings.Settings.{Settings};
ghost use Rattle.rs_wire.specs.declared.words.Way.{Way};
ghost use Rattle.tape.specs.declared.entry.Entry.{Entry};
ghost use Rattle.stream_model.specs.Laws.{IsOver, OneEnd, OneResponse, TakenFirst};
ghost use Rattle.stream_model.specs.Laws.{UsedWithinGranted, own_end};
ghost use Rattle.stream_model.specs.Streams.{highest, jobs, jobs_waiting, live, turn};
ghost use Rattle.stream_model.specs.Turns.{Turn, delivered, granted, items, over, taken, waiting};
ghost use Rattle.session_model.specs.Frames.{seen};
ghost use Rattle.session_model.specs.Lists.{IsPrefix};
ghost use Rattle.session_model.specs.Streams.{words};
ghost use Rattle.session_laws.specs.Jobs.{jobs_got, jobs_on, requests};
ghost use Rattle.session_laws.specs.Read.{turn_read, framed_words, read};
ghost use Rattle.session_laws.specs.Streams.{EndsReceiving, IsLawful, IsStream, stream};

/// What came before any entry of a lawful list is lawful.
pub fn what_came_before_is_lawful()
    ensures { (g : Settings) (more past : List Entry) →
        IsLawful g (more ++ past) → IsLawful g past }
{}

/// The streams are what the frames say that an end made and handled, read one by one in the order
/// of its entries: the same requests, and on each stream the same words, but that no frame tells
/// what callers took, and that the payload of a response completes in its frame whatever its call
/// said (RSocket 1.0, "Stream Sequences and Lifetimes"). Fragments are joined as they are read:
/// those that this end made to the frame that they were cut from, and those that came, on streams
/// where messages are taken in, to their message (RSocket 1.0, "Fragmentation and Reassembly"). So
/// whether a way is over, its items, and how many were granted are read off the frames, and so are
/// how many streams are open, the highest ids, and the requests that the peer made.
pub fn streams_are_what_frames_say()
    ensures streams { (g : Settings) (past : List Entry) (s : ℕ) → IsLawful g past →
        turn g.max_streams (read g.max_streams (seen g past)) s ≡ turn_read (stream g past s) }
    ensures over { (t : Turn) (w : Way) →
        over t.opening (framed_words t.opening t.words) w ≡ over t.opening t.words w }
    ensures items { (t : Turn) (w : Way) →
        items t.opening (framed_words t.opening t.words) w ≡ items t.opening t.words w }
    ensures granted { (t : Turn) (w : Way) →
        granted t.opening (framed_words t.opening t.words) w ≡ granted t.opening t.words w }
    ensures open { (g : Settings) (past : List Entry) → IsLawful g past →
        live g.max_streams (read g.max_streams (seen g past))
        ≡ live g.max_streams (words g past) }
    ensures highest { (g : Settings) (past : List Entry) (parity : ℕ) → IsLawful g past →
        highest parity (read g.max_streams (seen g past)) ≡ highest parity (words g past) }
    ensures requests { (g : Settings) (past : List Entry) → IsLawful g past →
        requests (jobs g.max_streams (read g.max_streams (seen g past)))
        ≡ requests (jobs g.max_streams (words g past)) }
{}

/// What a stream delivers is what its frames say, until this end itself ends the way on which it
/// receives, which the frames say too. From then on it has delivered what was taken, and no frame
/// tells that.
pub fn deliveries_are_what_frames_say()
    ensures own_end { (t : Turn) →
        own_end t.opening (framed_words t.opening t.words) ≡ own_end t.opening t.words }
    ensures delivered { (t : Turn) → own_end t.opening t.words ≡ false →
        delivered t.opening (framed_words t.opening t.words)
        ≡ delivered t.opening t.words }
    ensures taken { (g : Settings) (past : List Entry) (s : ℕ) (t : Turn) →
        IsStream g past s t → own_end t.opening t.words ≡ true →
        delivered t.opening t.words ≡ taken t.words }
{}

/// On each way of a stream or a channel no more items were used than were granted, by this end or
/// by its peer: the initial n of the request and each REQUEST_N grant them (RSocket 1.0,
/// "REQUEST_N Frame").
pub fn items_stay_within_credit()
    ensures { (g : Settings) (past : List Entry) (s : ℕ) (t : Turn) →
        IsStream g past s t → UsedWithinGranted t }
{}

/// A response carries one payload at most (RSocket 1.0, "Request Response").
pub fn a_response_carries_one_payload()
    ensures { (g : Settings) (past : List Entry) (s : ℕ) (t : Turn) →
        IsStream g past s t → OneResponse t }
{}

/// What was taken of a stream is a prefix of what was delivered, and the rest waits: nothing is
/// lost, nothing comes twice and nothing out of its order.
pub fn taken_is_what_was_delivered_first()
    ensures prefix { (g : Settings) (past : List Entry) (s : ℕ) (t : Turn) →
        IsStream g past s t → IsPrefix (taken t.words) (delivered t.opening t.words) }
    ensures rest { (g : Settings) (past : List Entry) (s : ℕ) (t : Turn) →
        IsStream g past s t → TakenFirst t }
{}

/// What was delivered on a stream has one end at most, as its last: no stream delivers after its
/// end.
pub fn a_stream_delivers_one_end()
    ensures { (g : Settings) (past : List Entry) (s : ℕ) (t : Turn) →
        IsStream g past s t → OneEnd t }
{}

/// Each request of the peer's is handed out once at most, and in the order in which the requests
/// became whole: what callers got as jobs, and then what waits, are all jobs, and no stream has two
/// (RSocket 1.0, "Request").
pub fn each_request_is_handed_out_once()
    ensures order { (g : Settings) (past : List Entry) → IsLawful g past →
        jobs_got past ++ jobs_waiting g.max_streams (words g past) ≡
        jobs g.max_streams (words g past) }
    ensures once { (g : Settings) (past : List Entry) (s : ℕ) → IsLawful g past →
        jobs_on s (jobs_got past) ≤ 1 }
{}

/// After an own CANCEL or ERROR that ends the way on which this end receives, nothing waits on the
/// stream, and nothing more is taken of it, whatever still comes (RSocket 1.0, "CANCEL Frame").
pub fn nothing_is_taken_after_an_own_end()
    ensures waits { (g : Settings) (more past : List Entry) (x : Entry) (s : ℕ) (t u : Turn) →
        IsLawful g (more ++ x ∷ past) → EndsReceiving g past x s t →
        stream g (more ++ x ∷ past) s ≡ Some u → waiting u.opening u.words ≡ [] }
    ensures takes { (g : Settings) (more past : List Entry) (x : Entry) (s : ℕ) (t u : Turn) →
        IsLawful g (more ++ x ∷ past) → EndsReceiving g past x s t →
        stream g (more ++ x ∷ past) s ≡ Some u → taken u.words ≡ taken t.words }
{}

/// A way of a stream that is over is over for good, whatever entries follow.
pub fn over_is_for_good()
    ensures { (g : Settings) (more past : List Entry) (s : ℕ) (w : Way) →
        IsLawful g (more ++ past) → IsOver (stream g past s) w →
        IsOver (stream g (more ++ past) s) w }
{}

/// No more streams are open than may be, those of both ends together.
pub fn streams_stay_within_their_limit()
    ensures { (g : Settings) (past : List Entry) →
        IsLawful g past → live g.max_streams (words g past) ≤ g.max_streams }
{}
