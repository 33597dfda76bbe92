// Laws about the definitions, the contract of a function that does nothing.
ghost use Rattle.admin_wire.specs.Laws.{NamesHaveOneAnswer, PublishesHaveOneAnswer};

/// A body has one reason at most to be refused, and none where it is read. So each refusal comes
/// exactly where its reason holds.
pub fn bodies_have_one_answer()
    ensures publishes { PublishesHaveOneAnswer }
    ensures names { NamesHaveOneAnswer }
{}
