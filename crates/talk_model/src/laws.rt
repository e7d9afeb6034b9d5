// What holds of the bytes of a connection. The functions do nothing: their clauses are the laws.
ghost use Rattle.talk_model.specs.declared.ends.End.TheVariants.{CloseAsked, BadHead, HeadTooLong, NoLength, BodyTooLong, Spent, NotBuilt};
ghost use Rattle.talk_model.specs.ConnectionLaws.{HaveOneReading, StaysRead, WholeOnesEnd};
ghost use Rattle.talk_model.specs.Methods.{PostsHaveBodies};

/// The bytes of a connection determine the requests at their front and its end, and bytes that come
/// behind an end that leaves bytes unread change neither.
pub fn bytes_have_one_reading()
    ensures one { HaveOneReading }
    ensures close_asked { StaysRead CloseAsked }
    ensures bad_head { StaysRead BadHead }
    ensures head_too_long { StaysRead HeadTooLong }
    ensures no_length { StaysRead NoLength }
    ensures body_too_long { StaysRead BodyTooLong }
    ensures spent { StaysRead Spent }
    ensures not_built { StaysRead NotBuilt }
{}

/// A connection whose bytes are whole requests to their end has these answered, up to the first that
/// asks to close and at most as many as it may have, and ends well if their forms are built.
pub fn whole_connections_end_well()
    ensures { WholeOnesEnd }
{}

/// The operations whose body is read are those whose method is POST.
pub fn posts_have_bodies()
    ensures { PostsHaveBodies }
{}
