//! Listings of modules.

use std::alloc::Global;
use std::test::Fail;

/// sum(N) adds the numbers from N down to 1: sum(4) has 22 rows.
pub const SUM: &str = "{module,t}. {exports,[{sum,1}]}. {attributes,[]}. {labels,6}.
{function,sum,1,2}. {label,1}. {func_info,{atom,t},{atom,sum},1}.
{label,2}. {move,{integer,0},{x,1}}. {call_only,2,{f,4}}.
{function,sum,2,4}. {label,3}. {func_info,{atom,t},{atom,sum},2}.
{label,4}. {test,is_eq_exact,{f,5},[{x,0},{integer,0}]}. {move,{x,1},{x,0}}. return.
{label,5}. {gc_bif,'+',{f,0},2,[{x,0},{x,1}],{x,1}}. {gc_bif,'-',{f,0},2,[{x,0},{integer,1}],{x,0}}. {call_only,2,{f,4}}.
";

/// loop() never ends, and never waits.
pub const LOOP: &str = "{module,l}. {exports,[{loop,0}]}. {attributes,[]}. {labels,3}.
{function,loop,0,2}. {label,1}. {func_info,{atom,l},{atom,loop},0}.
{label,2}. {call_only,0,{f,2}}.
";

/// double() makes a tuple of two empty lists, and 39 times a tuple that has the one before it twice, and waits: a few kilobytes, whose text
/// has terabytes.
pub const DOUBLE: &str = "{module,d}. {exports,[{double,0}]}. {attributes,[]}. {labels,6}.
{function,double,0,2}. {label,1}. {func_info,{atom,d},{atom,double},0}.
{label,2}. {move,nil,{x,0}}. {move,{integer,40},{x,1}}.
{label,3}. {put_tuple2,{x,0},{list,[{x,0},{x,0}]}}. {gc_bif,'-',{f,0},2,[{x,1},{integer,1}],{x,1}}.
{test,is_eq_exact,{f,3},[{x,1},{integer,0}]}. {allocate,1,1}. {move,{x,0},{y,0}}.
{label,4}. {loop_rec,{f,5},{x,0}}. {loop_rec_end,{f,4}}.
{label,5}. {wait,{f,4}}.
";

/// sleep(N) ends after N milliseconds.
pub const SLEEP: &str = "{module,s}. {exports,[{sleep,1}]}. {attributes,[]}. {labels,3}.
{function,sleep,1,2}. {label,1}. {func_info,{atom,s},{atom,sleep},1}.
{label,2}. {wait_timeout,{f,2},{x,0}}. timeout. {move,{atom,late},{x,0}}. return.
";

/// wait(N) ends after N milliseconds, and counts down from 300 at each message until then; tell(P, N) sends N messages to P.
pub const WAIT: &str = "{module,w}. {exports,[{wait,1},{tell,2}]}. {attributes,[]}. {labels,11}.
{function,wait,1,2}. {label,1}. {func_info,{atom,w},{atom,wait},1}.
{label,2}. {allocate,1,1}. {move,{x,0},{y,0}}.
{label,3}. {loop_rec,{f,6},{x,0}}. {move,{integer,300},{x,0}}.
{label,4}. {test,is_eq_exact,{f,5},[{x,0},{integer,0}]}. {loop_rec_end,{f,3}}.
{label,5}. {gc_bif,'-',{f,0},1,[{x,0},{integer,1}],{x,0}}. {jump,{f,4}}.
{label,6}. {wait_timeout,{f,3},{y,0}}. timeout. {move,{atom,late},{x,0}}. {deallocate,1}. return.
{function,tell,2,8}. {label,7}. {func_info,{atom,w},{atom,tell},2}.
{label,8}. {allocate,2,2}. {move,{x,0},{y,0}}. {move,{x,1},{y,1}}.
{label,9}. {test,is_eq_exact,{f,10},[{y,1},{integer,0}]}. {deallocate,2}. return.
{label,10}. {move,{y,0},{x,0}}. {move,{y,1},{x,1}}. send. {gc_bif,'-',{f,0},0,[{y,1},{integer,1}],{y,1}}. {jump,{f,9}}.
";

/// go(N, L) sends [] to each pid of L after N milliseconds; work() waits for a message, counts down from 1,300, and waits on.
pub const GO: &str = "{module,g}. {exports,[{go,2},{work,0}]}. {attributes,[]}. {labels,11}.
{function,go,2,2}. {label,1}. {func_info,{atom,g},{atom,go},2}.
{label,2}. {allocate,1,2}. {move,{x,1},{y,0}}.
{label,3}. {wait_timeout,{f,3},{x,0}}. timeout.
{label,4}. {test,is_nonempty_list,{f,5},[{y,0}]}. {get_list,{y,0},{x,0},{y,0}}. {move,nil,{x,1}}. send. {jump,{f,4}}.
{label,5}. {deallocate,1}. return.
{function,work,0,7}. {label,6}. {func_info,{atom,g},{atom,work},0}.
{label,7}. {loop_rec,{f,10},{x,0}}. remove_message. {move,{integer,1300},{x,0}}.
{label,8}. {test,is_eq_exact,{f,9},[{x,0},{integer,0}]}. {jump,{f,7}}.
{label,9}. {gc_bif,'-',{f,0},1,[{x,0},{integer,1}],{x,0}}. {jump,{f,8}}.
{label,10}. {wait,{f,7}}.
";

/// link(P, N) sends N messages to P, and waits for one after each of them.
pub const LINK: &str = "{module,c}. {exports,[{link,2}]}. {attributes,[]}. {labels,7}.
{function,link,2,2}. {label,1}. {func_info,{atom,c},{atom,link},2}.
{label,2}. {allocate,2,2}. {move,{x,0},{y,0}}. {move,{x,1},{y,1}}.
{label,3}. {test,is_eq_exact,{f,4},[{y,1},{integer,0}]}. {deallocate,2}. return.
{label,4}. {move,{y,0},{x,0}}. {move,{y,1},{x,1}}. send.
{label,5}. {loop_rec,{f,6},{x,0}}. remove_message. {gc_bif,'-',{f,0},0,[{y,1},{integer,1}],{y,1}}. {jump,{f,3}}.
{label,6}. {wait,{f,5}}.
";

/// call(P, N) counts down from N, and then sends 0 to P and ends.
pub const CALLER: &str = "{module,o}. {exports,[{call,2}]}. {attributes,[]}. {labels,4}.
{function,call,2,2}. {label,1}. {func_info,{atom,o},{atom,call},2}.
{label,2}. {test,is_eq_exact,{f,3},[{x,1},{integer,0}]}. send. return.
{label,3}. {gc_bif,'-',{f,0},2,[{x,1},{integer,1}],{x,1}}. {jump,{f,2}}.
";

/// hear() waits for a message, and ends with all that are there then as its reason, the last one first.
pub const HEAR: &str = "{module,h}. {exports,[{hear,0}]}. {attributes,[]}. {labels,6}.
{function,hear,0,2}. {label,1}. {func_info,{atom,h},{atom,hear},0}.
{label,2}. {move,nil,{x,1}}.
{label,3}. {loop_rec,{f,4},{x,0}}. remove_message. {put_list,{x,0},{x,1},{x,1}}. {jump,{f,3}}.
{label,4}. {test,is_nonempty_list,{f,5},[{x,1}]}. {move,{x,1},{x,0}}. {call_ext_only,1,{extfunc,erlang,exit,1}}.
{label,5}. {wait,{f,3}}.
";

/// main(P) sends P the exit signal `over`.
pub const OVER: &str = "{module,e}. {exports,[{main,1},{hold,0}]}. {attributes,[]}. {labels,5}.
{function,main,1,2}. {label,1}. {func_info,{atom,e},{atom,main},1}.
{label,2}. {move,{atom,over},{x,1}}. {call_ext_only,2,{extfunc,erlang,exit,2}}.
{function,hold,0,4}. {label,3}. {func_info,{atom,e},{atom,hold},0}.
{label,4}. {move,nil,{x,0}}. return.
";

/// watch(P, N) monitors P, counts down from N, sends [] to P, and ends with the first message as its reason.
pub const WATCH: &str = "{module,n}. {exports,[{watch,2}]}. {attributes,[]}. {labels,7}.
{function,watch,2,2}. {label,1}. {func_info,{atom,n},{atom,watch},2}.
{label,2}. {allocate,2,2}. {move,{x,0},{y,0}}. {move,{x,1},{y,1}}.
{move,{x,0},{x,1}}. {move,{atom,process},{x,0}}. {call_ext,2,{extfunc,erlang,monitor,2}}.
{label,3}. {test,is_eq_exact,{f,4},[{y,1},{integer,0}]}. {move,{y,0},{x,0}}. {move,nil,{x,1}}. send. {jump,{f,5}}.
{label,4}. {gc_bif,'-',{f,0},0,[{y,1},{integer,1}],{y,1}}. {jump,{f,3}}.
{label,5}. {loop_rec,{f,6},{x,0}}. remove_message. {call_ext_last,1,{extfunc,erlang,exit,1},2}.
{label,6}. {wait,{f,5}}.
";

/// main(N) starts N processes of b:work, and says hello to `hub`, if there is one. It ends the hub and one of its own, and takes messages
/// until none came for 20 ms.
pub const PARENT: &str = "{module,a}. {exports,[{main,1},{next,2}]}. {attributes,[]}. {labels,12}.
{function,main,1,2}. {label,1}. {func_info,{atom,a},{atom,main},1}.
{label,2}. {move,nil,{x,1}}. {call_ext_only,2,{extfunc,a,next,2}}.
{function,next,2,4}. {label,3}. {func_info,{atom,a},{atom,next},2}.
{label,4}. {allocate,2,2}. {move,{x,0},{y,0}}. {move,{x,1},{y,1}}.
{test,is_eq_exact,{f,5},[{y,0},{integer,0}]}. {jump,{f,6}}.
{label,5}. {bif,self,{f,0},[],{x,2}}. {put_list,{x,2},nil,{x,2}}. {put_list,{y,0},{x,2},{x,2}}.
{move,{atom,b},{x,0}}. {move,{atom,work},{x,1}}. {call_ext,3,{extfunc,erlang,spawn,3}}.
{put_list,{x,0},{y,1},{x,1}}. {gc_bif,'-',{f,0},2,[{y,0},{integer,1}],{x,0}}. {call_ext_last,2,{extfunc,a,next,2},2}.
{label,6}. {'catch',{y,0},{f,7}}. {move,{atom,hub},{x,0}}. {move,{atom,hello},{x,1}}. {call_ext,2,{extfunc,erlang,send,2}}.
{label,7}. {catch_end,{y,0}}. {move,{atom,hub},{x,0}}. {call_ext,1,{extfunc,erlang,whereis,1}}.
{test,is_eq_exact,{f,8},[{x,0},{atom,undefined}]}. {jump,{f,9}}.
{label,8}. {move,{atom,over},{x,1}}. {call_ext,2,{extfunc,erlang,exit,2}}.
{label,9}. {get_list,{y,1},{x,0},{y,1}}. {move,{atom,stop},{x,1}}. {call_ext,2,{extfunc,erlang,exit,2}}.
{label,10}. {loop_rec,{f,11},{x,0}}. remove_message. {put_list,{x,0},{y,1},{y,1}}. {jump,{f,10}}.
{label,11}. {wait_timeout,{f,10},{integer,20}}. timeout. {move,{y,1},{x,0}}. {deallocate,2}. return.
";

/// work(N, P) takes the name `hub`, if no process has it, and sends P the list of the numbers up to N, or, if that raises, the exception
/// that it catches. If there is a hub it ends it, perhaps itself, and takes messages until none came for 5 ms.
pub const CHILD: &str = "{module,b}. {exports,[{work,2},{list,2}]}. {attributes,[]}. {labels,13}.
{function,work,2,2}. {label,1}. {func_info,{atom,b},{atom,work},2}.
{label,2}. {allocate,3,2}. {move,{x,0},{y,0}}. {move,{x,1},{y,1}}.
{'catch',{y,2},{f,3}}. {bif,self,{f,0},[],{x,1}}. {move,{atom,hub},{x,0}}. {call_ext,2,{extfunc,erlang,register,2}}.
{label,3}. {catch_end,{y,2}}.
{'catch',{y,2},{f,4}}. {move,{y,0},{x,0}}. {move,nil,{x,1}}. {call_ext,2,{extfunc,b,list,2}}.
{label,4}. {catch_end,{y,2}}. {move,{x,0},{x,1}}. {move,{y,1},{x,0}}. send.
{move,{atom,hub},{x,0}}. {call_ext,1,{extfunc,erlang,whereis,1}}.
{test,is_eq_exact,{f,5},[{x,0},{atom,undefined}]}. {jump,{f,6}}.
{label,5}. {move,{atom,enough},{x,1}}. {call_ext,2,{extfunc,erlang,exit,2}}.
{label,6}. {loop_rec,{f,7},{x,0}}. remove_message. {jump,{f,6}}.
{label,7}. {wait_timeout,{f,6},{integer,5}}. timeout. {deallocate,3}. return.
{function,list,2,9}. {label,8}. {func_info,{atom,b},{atom,list},2}.
{label,9}. {test,is_eq_exact,{f,10},[{x,0},{integer,0}]}. {move,{x,1},{x,0}}. return.
{label,10}. {put_list,{x,0},{x,1},{x,1}}. {gc_bif,'-',{f,0},2,[{x,0},{integer,1}],{x,0}}. {call_only,2,{f,9}}.
";

/// seek(N) asks u and v for their versions, one after the other, until both are 2, and then N times more. It ends with the greatest version
/// as its reason, or with `mixed` once it meets a lesser one after a greater.
pub const SEEKER: &str = "{module,p}. {exports,[{seek,1}]}. {attributes,[]}. {labels,6}.
{function,seek,1,2}. {label,1}. {func_info,{atom,p},{atom,seek},1}.
{label,2}. {allocate,2,1}. {move,{x,0},{y,0}}. {move,{integer,0},{y,1}}.
{label,3}. {call_ext,0,{extfunc,u,version,0}}. {test,is_ge,{f,5},[{x,0},{y,1}]}. {move,{x,0},{y,1}}.
{call_ext,0,{extfunc,v,version,0}}. {test,is_ge,{f,5},[{x,0},{y,1}]}. {move,{x,0},{y,1}}.
{test,is_eq_exact,{f,3},[{y,1},{integer,2}]}. {gc_bif,'-',{f,0},0,[{y,0},{integer,1}],{y,0}}.
{test,is_eq_exact,{f,3},[{y,0},{integer,0}]}.
{label,4}. {move,{y,1},{x,0}}. {call_ext_last,1,{extfunc,erlang,exit,1},2}.
{label,5}. {move,{atom,mixed},{x,0}}. {call_ext_last,1,{extfunc,erlang,exit,1},2}.
";

/// A module whose version/0 answers that number.
pub fn version(alloc: Global, module: &str, number: u32) -> Result<String, Fail> {
    Ok(format!(in alloc;
        "{{module,{module}}}. {{exports,[{{version,0}}]}}. {{attributes,[]}}. {{labels,3}}.
{{function,version,0,2}}. {{label,1}}. {{func_info,{{atom,{module}}},{{atom,version}},0}}.
{{label,2}}. {{move,{{integer,{number}}},{{x,0}}}}. return.
"
    )?)
}
