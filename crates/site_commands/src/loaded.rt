use cause_effect::Plan;
use site_types::Site;

/// A site that a command has at hand, the plan of its markers and the digest of its file.
#[derive(Drop)]
pub struct Loaded {
    pub site: Site,
    pub plan: Plan,
    pub digest: [u8; 32],
}
