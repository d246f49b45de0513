//! Steps that turn into their inverses.

ghost use Rattle.std.specs.Prelude.{◌≡◌, ◌↔◌, ◌∷◌, ◌++◌, [], List, IsTrue, OnOk};

use std::alloc::AllocError;

/// A step that changes a document, and whose answer leads back.
///
/// A document is known by its content, which says nothing of the room that it keeps for more. Steps are played in
/// groups, from the last to the first; room is made for a whole group before any of it is played.
pub trait Reversible: Sized + Drop {
    /// What the step changes.
    type Doc;

    /// What a document holds.
    ghost Content: { Type 0 };

    ghost content: { Self.Doc → Content };

    /// The content after the step, and the step that leads back, where the step fits.
    ghost after: { Self → Content → Content };

    ghost inverse: { Self → Content → Self };

    ghost is_fit: { Self → Content → Type 0 };

    /// The document has room for the steps of a group, whose last step is played first.
    ghost has_room: { List Self → Self.Doc → Type 0 };

    /// Whether the step may be played on the document.
    fn fits(&self, doc: &Self::Doc) -> bool
        ensures { IsTrue result ↔ is_fit self.now (content doc.now) };

    /// Makes room for the steps of a group; refused for want of memory alone. The content stays.
    fn room(group: &[Self], doc: &mut Self::Doc) -> Result<(), AllocError>
        ensures content { content doc.new ≡ content doc.old }
        ensures room { OnOk result (has_room group.now doc.new) };

    /// Plays the step. The answer leads back. Takes no memory.
    fn play(self, doc: &mut Self::Doc) -> Self
        requires fits { is_fit self (content doc.old) }
        requires room { has_room (self ∷ []) doc.old }
        ensures content { content doc.new ≡ after self (content doc.old) }
        ensures answer { result ≡ inverse self (content doc.old) }
        ensures room { (rest : List Self) → has_room (rest ++ self ∷ []) doc.old → has_room rest doc.new };

    // The answer fits, and playing it gives back the content and the first step.

    ghost answer_fits: { (step : Self) (c : Content) → is_fit step c → is_fit (inverse step c) (after step c) };

    ghost gives_back_content: { (step : Self) (c : Content) → is_fit step c
        → after (inverse step c) (after step c) ≡ c };

    ghost gives_back_step: { (step : Self) (c : Content) → is_fit step c
        → inverse (inverse step c) (after step c) ≡ step };

    ghost last_has_room: { (rest : List Self) (step : Self) (doc : Self.Doc)
        → has_room (rest ++ step ∷ []) doc → has_room (step ∷ []) doc };
}
