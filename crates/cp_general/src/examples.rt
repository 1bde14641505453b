// An example of generalising.
ghost use Rattle.cp_model.specs.Skeleton.{IsSkeleton};
ghost use Rattle.cp_general.specs.Generalisation.{GeneralisesTo};
ghost use Rattle.cp_general.specs.Example.{protocol, sent_twice, heard_and_sent};

/// A text is heard and sent, and every text is derivable. Two strands sent it before, one of them the problem's. Generalising
/// takes two steps: it deletes the other strand, then drops the pair that orders the problem's sending before the hearing. The
/// problem is left.
pub fn second_sender_is_deleted()
    ensures skeleton { IsSkeleton protocol sent_twice }
    ensures generalises { GeneralisesTo sent_twice heard_and_sent }
{}
