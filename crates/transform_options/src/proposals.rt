/// Proposals to the standard. There are none.
#[derive(Debug, Default, Clone, Copy)]
pub struct ProposalOptions {}
