//! A panel of a site that runs by itself, as definitions: what it shows and hands on, where the words of the other
//! panels come to it in frames.
//!
//! What befalls such a panel is a history of moments and of frames that came (specs/Histories). Its moments are a run
//! of its site in which nothing befalls the other panels, so what the rules of the whole say of answers, operations,
//! settings and what is kept stands. Only the words of other panels and the state of its links come from elsewhere:
//! specs/Handed has the facts, faults and words of a panel that is handed these, whatever they are, specs/Shown its
//! buzzer and its face, and specs/Nodes says what a history hands it: of each panel the newest word that came, and a
//! link as down where no frame came over it of late. `node_face` and `node_frame` are what the panel then shows and
//! sends.
//!
//! There is no code here but the laws: that a word tells the faults that stood ([`own_faults_are_told`]), that a turn
//! goes by what came before it ([`turns_go_by_what_came`]) and operations done later change nothing of
//! ([`what_is_handed_stays`]), when zones of other panels are shown
//! ([`frames_are_shown`], [`zones_stay_shown`]), and that what is sent is in the grammar where what came was
//! ([`frames_stay_in_grammar`]). With the frames that the ring would hand it a panel by itself keeps what it would keep
//! there ([`frames_of_the_ring`]), and where its links were up it makes the same words ([`own_word_of_the_ring`]) and
//! shows the same face ([`face_of_the_ring`]). Panels that nothing befalls count no entries
//! ([`quiet_panels_have_no_entries`]).
#![tactic(auto)]

mod laws;

pub use laws::{
    face_of_the_ring, frames_are_shown, frames_of_the_ring, frames_stay_in_grammar,
    own_faults_are_told, own_word_of_the_ring, quiet_panels_have_no_entries, turns_go_by_what_came,
    what_is_handed_stays, zones_stay_shown,
};
