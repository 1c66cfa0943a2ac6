//! What is sent in any run of sites.

ghost use Rattle.world_messages.specs.RegisterCounts.{OncePerSite, NoneOfOwn};
ghost use Rattle.world_messages.specs.MessageCounts.{RequestsAreFew, FewWhereTokensServe};
ghost use Rattle.world_messages.specs.Messages.{SpawnsAreFew, RegistersAreFew};
ghost use Rattle.world_messages.specs.Unfit.{PartsAreFit};

/// In every run each site sends at most one Register for a variable and is sent at most one Binding, and none for its own. And
/// at most one Spawn is sent for each thread made.
pub fn registers_are_few()
    ensures once { OncePerSite }
    ensures own { NoneOfOwn }
    ensures spawns { SpawnsAreFew }
{}

/// Where those that wait for a token can be served when it comes, and each thread is at one place: how many messages on variables
/// and threads a run has at most, by the variables and threads that its schedule makes.
pub fn messages_are_few()
    ensures registers { RegistersAreFew }
    ensures requests { RequestsAreFew }
    ensures messages { FewWhereTokensServe }
{}

/// A message is fit where its part on variables, its part on cells and other names, and what it tells are.
pub fn parts_are_fit()
    ensures { PartsAreFit }
{}
