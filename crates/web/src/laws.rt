//! What is true of the messages of every stream, and of their answers. The functions do nothing when run; the contract
//! of each is a law.

ghost use Rattle.std.specs.Prelude.{◌≡◌, ◌≢◌, false, ℕ, List};
ghost use Rattle.std.specs.List.{AllByRecursion as Each};
ghost use Rattle.ledger.specs.Good.{Good};
ghost use Rattle.desk.specs.Desk.{Snapshot};
ghost use Rattle.desk.specs.Dialogue.{AnswerKind, AreAnswers, IsTranscript, ordinary};
ghost use Rattle.web.specs.Answers.{Answer, stopped_answer};
ghost use Rattle.web.specs.Messages.{AreParts, Part};
ghost use Rattle.web.specs.Web.{http};

/// Each stream has exactly one list of parts.
pub fn exactly_one_list_of_parts()
    ensures some { (stream : List ℕ) → (parts : List Part) × AreParts stream parts }
    ensures one { (stream : List ℕ) (parts others : List Part) → AreParts stream parts → AreParts stream others
        → parts ≡ others }
{}

/// At a good ledger each stream can be answered, with ordinary answers alone. For a stream and the kinds of its
/// answers there are never two texts: what is read and the kinds settle what is written.
pub fn exactly_one_answer()
    ensures some { (old : Snapshot) (stream : List ℕ) → Good old.ledger
        → (kinds : List AnswerKind) × (out : List ℕ) × (new : Snapshot) × Each (λ kind. kind ≡ ordinary) kinds
        × IsTranscript http old stream kinds out new }
    ensures one { (old : Snapshot) (stream : List ℕ) (kinds : List AnswerKind) (out other : List ℕ) (new last : Snapshot)
        → IsTranscript http old stream kinds out new → IsTranscript http old stream kinds other last
        → (out ≡ other) × (new ≡ last) }
{}

/// Where no answer has the status 503, each is an ordinary one.
pub fn kinds_are_told()
    ensures { (old : Snapshot) (parts : List Part) (kinds : List AnswerKind) (answers : List Answer) (new : Snapshot)
        → AreAnswers http old parts kinds answers new → Each (λ answer. answer.status ≢ 503) answers
        → Each (λ kind. kind ≡ ordinary) kinds }
{}

/// Where a desk is not stopped after its answers, none of them is `stopped`.
pub fn stopped_is_told()
    ensures { (old : Snapshot) (parts : List Part) (kinds : List AnswerKind) (answers : List Answer) (new : Snapshot)
        → AreAnswers http old parts kinds answers new → new.is_stopped ≡ false
        → Each (λ answer. answer ≢ stopped_answer) answers }
{}
